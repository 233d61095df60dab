//! A book as it is seen from a query.

use geometry::bounds::Bounds;

// Contracts name the model and the distance in full: a definition would take B's and M's dictionaries at each use.
/// A book, a measure, and the query from which the measure tells how far each box of the book is.
#[derive(Drop)]
pub(crate) struct View<B, M> {
    pub(crate) book: B,
    pub(crate) measure: M,
    pub(crate) query: Bounds,
}
