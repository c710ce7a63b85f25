// The powers of 02 (document 01, "The field") by two constant tables, that of the powers and that of the exponents that go with them.
#![tactic(auto)]

mod exponent;
mod log_table;
mod power_table;

ghost use Rattle.std.specs.Prelude.{◌≡◌, get_or};
ghost use Rattle.field.specs.Field.{PowerTable, LogTable};

pub use exponent::Exponent;

// The table of the powers of 02, lent: nothing is copied.
pub fn powers() -> &'static [u8; 255]
    ensures { PowerTable result.now }
{
    &power_table::POWERS
}

// The table of the exponents, lent too: that of each element but zero as a power of 02, and 0 for zero.
pub fn logs() -> &'static [u8; 256]
    ensures log_table { LogTable result.now }
    ensures zero { get_or result.now 0 0 ≡ 0 }
{
    &log_table::LOGS
}
