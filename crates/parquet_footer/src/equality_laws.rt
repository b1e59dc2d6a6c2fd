//! Laws of `==`: it returns true for two values exactly if they are the same.
ghost use Rattle.std.specs.Prelude.{◌≡◌, ◌↔◌, IsTrue};

use crate::code::{FooterCode, Severity};
use crate::element::{PhysicalType, Repetition};
use crate::fault::{FooterError, FooterRule};
use crate::logical::{Algorithm, TimeUnit};

/// A law: `==` returns true for two rules exactly if they are the same.
pub fn rule_equality_is_exact(one: FooterRule, other: FooterRule) -> bool
    ensures { IsTrue result ↔ (one ≡ other) }
{
    one == other
}

/// A law: `==` returns true for two errors exactly if they are the same, with rule and offset.
pub fn footer_error_equality_is_exact(one: FooterError, other: FooterError) -> bool
    ensures { IsTrue result ↔ (one ≡ other) }
{
    one == other
}

/// A law: `==` returns true for two physical types exactly if they are the same.
pub fn physical_type_equality_is_exact(one: PhysicalType, other: PhysicalType) -> bool
    ensures { IsTrue result ↔ (one ≡ other) }
{
    one == other
}

/// A law: `==` returns true for two repetitions exactly if they are the same.
pub fn repetition_equality_is_exact(one: Repetition, other: Repetition) -> bool
    ensures { IsTrue result ↔ (one ≡ other) }
{
    one == other
}

/// A law: `==` returns true for two units of time exactly if they are the same.
pub fn time_unit_equality_is_exact(one: TimeUnit, other: TimeUnit) -> bool
    ensures { IsTrue result ↔ (one ≡ other) }
{
    one == other
}

/// A law: `==` returns true for two algorithms exactly if they are the same.
pub fn algorithm_equality_is_exact(one: Algorithm, other: Algorithm) -> bool
    ensures { IsTrue result ↔ (one ≡ other) }
{
    one == other
}

/// A law: `==` returns true for two codes exactly if they are the same.
pub fn footer_code_equality_is_exact(one: FooterCode, other: FooterCode) -> bool
    ensures { IsTrue result ↔ (one ≡ other) }
{
    one == other
}

/// A law: `==` returns true for two severities exactly if they are the same.
pub fn severity_equality_is_exact(one: Severity, other: Severity) -> bool
    ensures { IsTrue result ↔ (one ≡ other) }
{
    one == other
}
