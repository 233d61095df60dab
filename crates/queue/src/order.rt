//! Elements with a total order.

ghost use Rattle.std.specs.Prelude.{◌≡◌, Bool};
ghost use Rattle.queue.specs.Order.{TotalOrder, turned};
ghost use Rattle.queue.specs.Orders.{order_by, turned_order};

/// An element with a total order: of any two that differ, exactly one precedes the other. `Ord` lets two that differ be
/// equal, so it is not asked for; a type that derives it can answer by `self < other`.
pub trait Ordered {
    ghost before: { Self → Self → Bool };

    fn precedes(&self, other: &Self) -> bool
        ensures { result ≡ before self.now other.now };

    ghost total: { TotalOrder before };
}

/// An element in the order turned round: the last of them comes first.
#[derive(Clone, Copy)]
pub struct Reversed<T>(pub T);

impl<T: Ordered> Ordered for Reversed<T> {
    ghost before = { λ x y. turned T.Ordered.before x.0 y.0 };

    ghost total = { let before = T.Ordered.before in
        order_by (λ x. x.0) (λ x y e i. record { 0 = e i }) (turned before) (turned_order before T.Ordered.total) };

    fn precedes(&self, other: &Reversed<T>) -> bool {
        other.0.precedes(&self.0)
    }
}
