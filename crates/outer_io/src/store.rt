//! Files by name, read and written a piece at a time.

ghost use Rattle.std.specs.Prelude.{◌≡◌, ◌≤◌, ◌<◌, ◌∷◌, [], ◌-◌, ◌^◌, ℕ, List, Option, Bool, IsTrue, is_ok, take, length, false, IfOk, OnOk, OnErr};
ghost use Rattle.std.specs.Result.{result_ok};
ghost use Rattle.outer_io.specs.Faults.{HasCause};
ghost use Rattle.outer_io.specs.Tells.{Tells, Gains};
ghost use Rattle.outer_io.specs.Shown.{StoreShown};
ghost use Rattle.outer_io.specs.Files.{Text, BeginsRead, Takes, TakesNone, Creates, Puts, PutsNone, FailsToPut, Finishes};

use thiserror::Error;

/// The outside failed. Its count of faults rose in that call, or stands at 2^64 - 1.
#[derive(Debug, Drop, Error)]
#[error("the outside failed")]
pub struct Failed;

/// Files by name, of which one at a time is read and one at a time is written.
///
/// Both go on side by side. A file that is finished while it is open for reading is read on from the
/// place reached, in its new bytes: what was taken then stands as it was, and where the new content
/// is no longer than that, the file is at its end.
///
/// After a call that failed the bytes taken and the bytes put are as before it; after any other the count of faults is.
pub trait Store {
    /// What the store shows: its files (the content of each name's file, the name being read and the
    /// bytes taken since `begin_read`, the name being written and the bytes put since `create`), the
    /// names handed to `begin_read` and `create` so far, and how often it failed.
    ghost shown: { Self → StoreShown };

    /// Whether a file is open for reading.
    ghost is_open: { Self → Bool };

    /// Whether a file is created and not yet finished.
    ghost is_created: { Self → Bool };

    /// What a call makes of this store besides what it makes of every store: of its arguments, its answer and the
    /// store after it. A form in memory says all by it.
    ghost begin_read_gives: { Self → Text → Bool → Self → Type 0 } = { λ _ _ _ _. Unit {0} };

    ghost read_gives: { Self → ℕ → Option ℕ → Self → Type 0 } = { λ _ _ _ _. Unit {0} };

    ghost create_gives: { Self → Text → Bool → Self → Type 0 } = { λ _ _ _ _. Unit {0} };

    ghost put_gives: { Self → List ℕ → Option ℕ → Self → Type 0 } = { λ _ _ _ _. Unit {0} };

    ghost finish_gives: { Self → Bool → Self → Type 0 } = { λ _ _ _. Unit {0} };

    /// Opens the file of this name for reading, from its start, in place of one that is open.
    ///
    /// It fails where there is no such file. Then none is open for reading.
    fn begin_read(&mut self, name: &str) -> Result<(), Failed>
        ensures cause { HasCause (shown self.old).faults (shown self.new).faults result }
        ensures open { is_open self.new ≡ is_ok result }
        ensures created { is_created self.new ≡ is_created self.old }
        ensures opened { Tells (shown self.old).opened (shown self.new).opened (Gains (name.now ∷ [])) }
        ensures ok { OnOk result (Tells (shown self.old).files (shown self.new).files (BeginsRead name.now)) }
        ensures err { OnErr result (Tells (shown self.old).files (shown self.new).files TakesNone) }
        ensures gives { begin_read_gives self.old name.now (is_ok result) self.new };

    /// Reads the next bytes of the file that is open into the front of the buffer, and answers how
    /// many: 0 at the file's end, otherwise 1 to the buffer's length. Into an empty buffer it
    /// answers 0 and takes nothing.
    fn read(&mut self, into: &mut [u8]) -> Result<usize, Failed>
        requires { IsTrue (is_open self.old) }
        ensures cause { HasCause (shown self.old).faults (shown self.new).faults result }
        ensures open { is_open self.new ≡ is_open self.old }
        ensures created { is_created self.new ≡ is_created self.old }
        ensures opened { Tells (shown self.old).opened (shown self.new).opened (Gains []) }
        ensures count { IfOk result (λ n. n ≤ length into.old) }
        ensures ok { IfOk result (λ n.
            Tells (shown self.old).files (shown self.new).files (Takes (length into.old) (take n into.new))) }
        ensures err { OnErr result (Tells (shown self.old).files (shown self.new).files TakesNone) }
        ensures gives { read_gives self.old (length into.old) (result_ok result) self.new };

    /// Begins to write a file of this name, in place of one that is being written.
    ///
    /// Where it fails none is created. The file of the name may be anything until it is finished.
    fn create(&mut self, name: &str) -> Result<(), Failed>
        ensures cause { HasCause (shown self.old).faults (shown self.new).faults result }
        ensures open { is_open self.new ≡ is_open self.old }
        ensures created { is_created self.new ≡ is_ok result }
        ensures opened { Tells (shown self.old).opened (shown self.new).opened (Gains (name.now ∷ [])) }
        ensures ok { OnOk result (Tells (shown self.old).files (shown self.new).files (Creates name.now)) }
        ensures err { OnErr result (Tells (shown self.old).files (shown self.new).files (PutsNone name.now)) }
        ensures gives { create_gives self.old name.now (is_ok result) self.new };

    /// Writes the first bytes of the piece after those put so far, and answers how many: 1 to the
    /// piece's length. Of an empty piece it takes nothing and answers 0.
    fn put(&mut self, piece: &[u8]) -> Result<usize, Failed>
        requires { IsTrue (is_created self.old) }
        ensures cause { HasCause (shown self.old).faults (shown self.new).faults result }
        ensures open { is_open self.new ≡ is_open self.old }
        ensures created { is_created self.new ≡ is_created self.old }
        ensures opened { Tells (shown self.old).opened (shown self.new).opened (Gains []) }
        ensures count { IfOk result (λ n. n ≤ length piece.now) }
        ensures some { IfOk result (λ n. 0 < length piece.now → 0 < n) }
        ensures ok { IfOk result (λ n. Tells (shown self.old).files (shown self.new).files (Puts (take n piece.now))) }
        ensures err { OnErr result (Tells (shown self.old).files (shown self.new).files FailsToPut) }
        ensures gives { put_gives self.old piece.now (result_ok result) self.new };

    /// Makes the file that was created the bytes put since then.
    ///
    /// Where it fails, too, none is created.
    fn finish(&mut self) -> Result<(), Failed>
        requires { IsTrue (is_created self.old) }
        ensures cause { HasCause (shown self.old).faults (shown self.new).faults result }
        ensures open { is_open self.new ≡ is_open self.old }
        ensures created { is_created self.new ≡ false }
        ensures opened { Tells (shown self.old).opened (shown self.new).opened (Gains []) }
        ensures ok { OnOk result (Tells (shown self.old).files (shown self.new).files Finishes) }
        ensures err { OnErr result (Tells (shown self.old).files (shown self.new).files FailsToPut) }
        ensures gives { finish_gives self.old (is_ok result) self.new };

    /// A count of faults is at most 2^64 - 1.
    ghost counted: { (s : Self) → (shown s).faults ≤ 2 ^ 64 - 1 };
}
