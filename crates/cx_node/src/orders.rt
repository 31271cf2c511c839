//! No order of a tended node is in vain, and a replica that lags waits for no beat.

ghost use Rattle.cx_node.specs.Orders.{AsksOn, NoVainOrder};

/// A law of tending: each order that a leader is given, whatever was counted, is one that it takes: a round is begun,
/// or there is none left, or the earlier rounds begin to be retired. Only an idle leader is to lead, and only one
/// that has retired the earlier rounds to change.
pub fn no_vain_order()
    ensures { NoVainOrder }
{}

/// A law of tending: a replica that got what it lacked from another one asks for the next value at once.
pub fn lagging_replicas_ask_on()
    ensures { AsksOn }
{}
