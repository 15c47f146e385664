use mj_seats::{HandlerEnd, Session};

/// A session with a seat at one of many tables, which are numbered from 0.
#[derive(Drop)]
pub struct TableSession<L> {
    pub table: u8,
    pub session: Session<L>,
}

/// What is left of the games of many tables, in the order of the tables: the games, the links of all sessions with a seat,
/// and how each handler ended, in the order of their numbers.
#[derive(Drop)]
pub struct ClosedTables<G, L, F> {
    pub games: Vec<G>,
    pub sessions: Vec<TableSession<L>>,
    pub ends: Vec<HandlerEnd<F>>,
}
