// One term: its name and how many children it has.
#[derive(Clone, Copy)]
pub struct Node<'a> {
    pub name: &'a [u8],
    pub children: usize,
}
