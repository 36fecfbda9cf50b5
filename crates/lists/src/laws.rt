//! Laws of the definitions: each is the contract of a function that does nothing.

ghost use Rattle.lists.specs.SetLaws.{InsertedAscends, UnionAscends, SetOfAscends, InsertedHas, UnionHas, SetOfHas, MembersAreElements, HaveOneList, UnionCommutes, UnionAssociates, UnionWithin};

/// A set with one more, a union and the set of a list ascend without repeats.
pub fn sets_ascend<T>()
    ensures inserted { InsertedAscends T }
    ensures union { UnionAscends T }
    ensures set_of { SetOfAscends T }
{}

/// What is in a set with one more, in a union and in the set of a list.
pub fn members_are_kept<T>()
    ensures inserted { InsertedHas T }
    ensures union { UnionHas T }
    ensures set_of { SetOfHas T }
    ensures elements { MembersAreElements T }
{}

/// Two ascending lists with the same members are equal.
pub fn sets_have_one_list<T>()
    ensures { HaveOneList T }
{}

/// Neither the order nor the grouping of sets makes a difference to their union, nor does a set within
/// another.
pub fn unions_are_alike<T>()
    ensures commutes { UnionCommutes T }
    ensures associates { UnionAssociates T }
    ensures within { UnionWithin T }
{}
