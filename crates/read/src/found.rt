// What a search answers: where an entry stands.

// An entry of the store: at a position of the memory table or of a place.
#[derive(Clone, Copy)]
pub enum Spot {
    Memory(usize),
    Place(usize, usize),
}
