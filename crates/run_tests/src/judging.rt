//! The judge of reports, tried on legal reports, on reports that lie, and on texts that are none.
mod asked;
mod by_hand;
mod cases;
mod forms;
mod full;
mod lies;
