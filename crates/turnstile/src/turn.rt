//! A turn: the state is with the seat that entered.
use crate::seat::Seat;
use crate::served::Served;
use crate::tale::Tale;

/// A turn of a seat. It is not `Drop`: `leave` spends it, and gives the state and the seat back.
pub struct Turn<'a, S: Tale> {
    pub(crate) place: &'a mut Seat<S::Event>,
    pub(crate) seat: Served<S, S::Event>,
    pub(crate) state: S,
}
