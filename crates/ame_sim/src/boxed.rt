//! A boxed chooser: the chooser inside picks.
use crate::chooser::Chooser;
use ame_term::NoMemory;

impl Chooser for Box<dyn Chooser> {
    ghost strategy = { λ b. (Chooser-box b).strategy b.value };

    fn choose(&mut self, may: &[u32]) -> Result<u32, NoMemory> {
        (**self).choose(may)
    }
}
