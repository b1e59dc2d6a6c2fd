//! Laws of differences: functions with nothing to run, whose contract is the law.
ghost use Rattle.same_columns.specs.Laws.{AreAsThemselves, AreExchanged};

use crs_identity::laws::{equal_values_agree, json_equality_is_fair, verdict_is_symmetric};
use geoarrow_layout::{alike_both_ways, alike_to_itself};

/// A law: columns have no difference from themselves. There is nothing to run.
pub fn nothing_differs_from_itself()
    ensures { AreAsThemselves }
{
    alike_to_itself();
    equal_values_agree();
    json_equality_is_fair();
}

/// A law: the differences of two files are the same both ways round, but that the files are
/// exchanged. There is nothing to run.
pub fn differences_are_exchanged()
    ensures { AreExchanged }
{
    alike_both_ways();
    verdict_is_symmetric();
}
