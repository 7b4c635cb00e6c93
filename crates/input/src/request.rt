// The requests, and which of them a name is.
use crate::names;

#[derive(Clone, Copy)]
pub enum Request {
    Pair,
    Drawn,
    Edge,
    Tiles,
    Directions,
    Put,
    Remove,
    Clear,
    Cell,
    Cells,
    Row,
    Lend,
    Poke,
    Sheet,
    Load,
    Write,
    Host,
}

impl Request {
    // The request that has this name, if there is one.
    pub fn named(name: u64) -> Option<Request> {
        match name {
            names::PAIR => Some(Request::Pair),
            names::DRAWN => Some(Request::Drawn),
            names::EDGE => Some(Request::Edge),
            names::TILES => Some(Request::Tiles),
            names::DIRECTIONS => Some(Request::Directions),
            names::PUT => Some(Request::Put),
            names::REMOVE => Some(Request::Remove),
            names::CLEAR => Some(Request::Clear),
            names::CELL => Some(Request::Cell),
            names::CELLS => Some(Request::Cells),
            names::ROW => Some(Request::Row),
            names::LEND => Some(Request::Lend),
            names::POKE => Some(Request::Poke),
            names::SHEET => Some(Request::Sheet),
            names::LOAD => Some(Request::Load),
            names::WRITE => Some(Request::Write),
            names::HOST => Some(Request::Host),
            _ => None,
        }
    }
}
