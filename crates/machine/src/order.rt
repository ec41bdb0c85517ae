// How two stores stand, from their rows.
ghost use Rattle.std.specs.Prelude.{◌≡◌};
ghost use Rattle.machine.specs.Orders.{store_w, order_w};

use model::Order;

// Event p is a store, one of events 1 to n. The row of an event that has not come is not looked at.
#[tactic(auto, unfolding(crate::specs::Orders::store_w))]
pub fn is_store(work: &[u16], n: u16, p: u16) -> bool
    ensures { result ≡ store_w work.now n p }
{
    p != 0 && p <= n && area::row_get(work, p, 10) != 0
}

// How store p stands to store q: by the clocks of the two.
#[tactic(auto, unfolding(crate::specs::Orders::order_w))]
pub fn order_of(work: &[u16], p: u16, q: u16) -> Order
    ensures { result ≡ order_w work.now p q }
{
    if p == q {
        return Order::Same;
    }
    if area::covers(work, p, q) {
        return Order::Before;
    }
    if area::covers(work, q, p) {
        return Order::After;
    }
    Order::Neither
}
