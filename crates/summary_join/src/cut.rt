//! What locations had at a cut.

ghost use Rattle.std.specs.Prelude.{◌≡◌, [], get_or, map, All, IfOk};
ghost use Rattle.flow_model.specs.Ranges.{IsLocation};
ghost use Rattle.taint_shadow.specs.Labels.{nothing_label};
ghost use Rattle.taint_shadow.specs.Places.{kept};

use epoch_summary::Asked;
use flow_model::Loc;
use no_memory::NoMemory;
use std::alloc::Global;
use taint_shadow::{Label, Places};

/// The locations that an epoch asks for, and the labels of what they had at its start, in the same order. Those past
/// the last label had nothing.
#[derive(Drop)]
pub struct CutLabels {
    pub(crate) asked: Asked,
    pub(crate) labels: Vec<Label>,
}

impl CutLabels {
    ghost use Rattle.summary_join.specs.Labels.{label_at};

    /// The cut before all epochs, where nothing had anything. It takes no memory.
    pub fn before_all(alloc: Global, asked: Asked) -> CutLabels
        ensures asked { result.asked ≡ asked }
        ensures labels { result.labels.items ≡ [] }
    {
        CutLabels {
            asked,
            labels: Vec::new(alloc),
        }
    }

    /// A cut at which locations have these labels. It gives up with NoMemory alone.
    pub fn of_places(alloc: Global, asked: Asked, places: &Places) -> Result<CutLabels, NoMemory>
        requires { All IsLocation asked }
        ensures asked { IfOk result (λ cut. cut.asked ≡ asked) }
        ensures labels { IfOk result (λ cut. cut.labels.items ≡ map (kept places.now) asked) }
    {
        let labels = asked
            .locations()
            .iter()
            .map(|loc| places.get(*loc))
            .collect(alloc)?;
        Ok(CutLabels { asked, labels })
    }

    /// The label of what a location had: that of nothing where it isn't asked for. Locations that are asked for one after
    /// the other are mostly looked for so: the place after the one that was found last is looked at first.
    #[inline(always)]
    pub fn label(&self, loc: Loc, next: &mut usize) -> Label
        ensures { result ≡ label_at self.now.asked self.now.labels.items loc }
    {
        self.asked.form();
        match self.asked.place_near(loc, *next) {
            Some(place) => {
                *next = place.wrapping_add(1);
                label_or_nothing(&self.labels, place)
            }
            None => Label::nothing(),
        }
    }
}

/// The label at a place: that of nothing past the last.
#[inline(always)]
pub fn label_or_nothing(labels: &[Label], place: usize) -> Label
    ensures { result ≡ get_or labels.now place nothing_label }
{
    match labels.get(place) {
        Some(label) => *label,
        None => Label::nothing(),
    }
}
