// Rows in order in a lent table (document 01, "One event"): a row put in among them. Above `ordered`.
// Interior: kept rows and reports are put in with it.

#![tactic(auto)]

ghost use Rattle.tables.specs.Tables.{Enterable, Entered};

use limits::{Combination, KEPT_STRIDE};

// Puts a row in among n rows in order, the first of which begins at `base`.
pub fn enter(t: &mut [u32], base: usize, n: usize, c: Combination, s: u32)
    requires { Enterable base n t.old }
    ensures { Entered base n c s t.old t.new }
{
    let at = ordered::place(t, base, KEPT_STRIDE, n, c);
    ordered::insert_kept(t, base + n * KEPT_STRIDE, base + at * KEPT_STRIDE, c, s);
}
