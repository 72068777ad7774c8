// Room made in a table: some words moved to the right within it.
#![tactic(auto)]

ghost use Rattle.std.specs.Prelude.{◌≡◌, ◌+◌, ◌-◌, ◌≤◌, length, take, drop};
ghost use Rattle.tables.specs.Layout.{write};

// Moves the words from `at` up to `past` by `by` places to the right.
// inner
pub fn shift_words(t: &mut [u64], at: usize, past: usize, by: usize)
    requires at_le_past { at ≤ past }
    requires by_in_bounds { past + by ≤ length t.old }
    ensures { t.new ≡ write t.old (at + by) (take (past - at) (drop at t.old)) }
{
    t.copy_within(at..past, at + by);
}
