ghost use Rattle.std.specs.Prelude.{◌≤◌};

// A visit: by which chooser and in which source, of which term and how deep, the term's name, and what is chosen for it.
#[derive(Drop)]
pub(crate) struct Job<'j, C, S, M> {
    pub(crate) chooser: &'j C,
    pub(crate) source: &'j S,
    pub(crate) term: usize,
    pub(crate) depth: usize,
    pub(crate) name: &'j [u8],
    pub(crate) code: &'j [u8],
    pub(crate) found: Option<M>,
    pub(crate) ghost shallow: { depth ≤ 128 },
}
