//! Laws of the relation: functions with nothing to run, whose contract is the law.
ghost use Rattle.std.specs.Prelude.{◌≡◌, true, false};
ghost use Rattle.json.specs.Json.{Json};
ghost use Rattle.crs_identity.specs.Equality.{json_equal};
ghost use Rattle.crs_identity.specs.Forms.{Form, form_of_value, identifiers};
ghost use Rattle.crs_identity.specs.Identifiers.{share_identifier};
ghost use Rattle.crs_identity.specs.Verdicts.{Claimed, crs_verdict, verdict_of};
ghost use Rattle.crs_identity.specs.declared.verdict.Verdict.TheVariants.{Agree, Contradict};

/// A law: the verdict on two claims does not depend on their order. There is nothing to run.
pub fn verdict_is_symmetric()
    ensures { (a b : Claimed) → crs_verdict a b ≡ crs_verdict b a }
{}

/// A law: equal values are one CRS, whatever their form. There is nothing to run.
pub fn equal_values_agree()
    ensures { (i j : Json) → json_equal i j ≡ true
        → verdict_of (form_of_value i) (form_of_value j) ≡ Agree }
{}

/// A law: two CRSs that contradict have no identifier in common. There is nothing to run.
pub fn contradiction_shares_nothing()
    ensures { (f g : Form) → verdict_of f g ≡ Contradict
        → share_identifier (identifiers f) (identifiers g) ≡ false }
{}

/// A law: equality of JSON values is symmetric, and each value equals itself. There is nothing to
/// run.
pub fn json_equality_is_fair()
    ensures symmetric { (i j : Json) → json_equal i j ≡ json_equal j i }
    ensures reflexive { (j : Json) → json_equal j j ≡ true }
{}
