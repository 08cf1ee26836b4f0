//! Laws of the definitions that the other contracts cite. Each is a function that does nothing.
ghost use Rattle.std.specs.Prelude.{◌≡◌, ◌↔◌, true, List, Contains};
ghost use Rattle.std.specs.declared.cmp.Ordering.TheVariants.{Equal};
ghost use Rattle.std.specs.Cmp.{IsTotalOrder};
ghost use Rattle.kola_values.specs.Types.{TypeTree, same_type};
ghost use Rattle.kola_values.specs.Values.{ValueTree};
ghost use Rattle.kola_values.specs.Order.{cmp};
ghost use Rattle.kola_values.specs.Sets.{IsRisingListOf, canon, has};

/// The order of values is total, and two values are equal in it exactly where they are the same.
pub fn values_are_totally_ordered()
    ensures total { IsTotalOrder cmp }
    ensures exact { (v w : ValueTree) → ((cmp v w ≡ Equal) ↔ (v ≡ w)) }
{}

/// The test of two types answers true exactly where they are the same.
pub fn equal_types_are_the_same()
    ensures { (t u : TypeTree) → ((same_type t u ≡ true) ↔ (t ≡ u)) }
{}

/// A list of values has one strictly rising list with the same members, which is `canon` of it; and the test whether a value is a member
/// answers true exactly at the members.
pub fn members_make_one_rising_list()
    ensures rising { (vs : List ValueTree) → IsRisingListOf vs (canon vs) }
    ensures one { (vs ws : List ValueTree) → IsRisingListOf vs ws → ws ≡ canon vs }
    ensures member { (v : ValueTree) (vs : List ValueTree) → ((has v vs ≡ true) ↔ Contains vs v) }
{}
