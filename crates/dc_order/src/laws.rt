//! Laws on orders and rings. Each function does nothing: its contract is the law.

ghost use Rattle.dc_order.specs.Laws.{OrdersExcludeRings};

/// Where there is an order, there is no ring.
pub fn orders_exclude_rings()
    ensures { OrdersExcludeRings }
{}
