//! Whole numbers as values of samples, in decimal.

ghost use Rattle.std.specs.Prelude.{◌≡◌, ◌++◌, ℤ, OnOk};
ghost use Rattle.std.specs.Fmt.{signed_decimal};
ghost use Rattle.otel_prometheus.specs.Numbers.{unsigned, signed};

use itoa::Buffer;
use std::alloc::AllocError;

/// A number type of samples: `u64` or `i64`.
pub trait Number: Copy {
    /// The number.
    ghost integer: { Self → ℤ };

    /// Appends the number in decimal. Refused only for want of memory.
    fn push_to(self, out: &mut Vec<u8>) -> Result<(), AllocError>
        ensures { OnOk result (out.new.items ≡ out.old.items ++ signed_decimal (integer self)) };
}

impl Number for u64 {
    ghost integer = { unsigned };

    fn push_to(self, out: &mut Vec<u8>) -> Result<(), AllocError> {
        let mut buffer = Buffer::new();
        out.extend_from_slice(buffer.format(self).as_bytes())
    }
}

impl Number for i64 {
    ghost integer = { signed };

    fn push_to(self, out: &mut Vec<u8>) -> Result<(), AllocError> {
        let mut buffer = Buffer::new();
        out.extend_from_slice(buffer.format(self).as_bytes())
    }
}
