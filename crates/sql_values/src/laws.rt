//! What the checks are for, and that a set of keys has one list, as laws: each is the contract of a function without a body.

ghost use Rattle.std.specs.Prelude.{◌≡◌, List};
ghost use Rattle.sql_values.specs.declared.places.Interval.{Interval};
ghost use Rattle.sql_values.specs.KeySets.{IsNormal, AreBigInts, HaveSameKeys};
ghost use Rattle.sql_values.specs.Laws.{ColumnsHaveValues, OperandsHaveAnOrder};

/// A column that [`check_cond`](crate::check_cond) doesn't refuse has a value of its kind in each row of the tables.
#[tactic(auto, using(crate::proofs::Kept::columns_have_values))]
pub fn columns_have_values()
    ensures { ColumnsHaveValues }
{}

/// The sides of a comparison that [`check_cond`](crate::check_cond) doesn't refuse have an order on each row of the tables.
#[tactic(auto, using(crate::proofs::Kept::operands_have_an_order))]
pub fn operands_have_an_order()
    ensures { OperandsHaveAnOrder }
{}

/// A set of keys has one list of intervals in normal form.
#[tactic(auto, using(crate::proofs::OneList::sets_are_one_list))]
pub fn sets_have_one_list()
    ensures { (a b : List Interval) → AreBigInts a → AreBigInts b → IsNormal a → IsNormal b → HaveSameKeys a b → a ≡ b }
{}
