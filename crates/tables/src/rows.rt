// One term: its name and the numbers of its children.
#[derive(Clone, Copy)]
pub struct Row<'a> {
    pub name: &'a [u8],
    pub children: &'a [usize],
}
