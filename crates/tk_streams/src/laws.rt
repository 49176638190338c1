//! The laws of the limits: each as a number.
ghost use Rattle.std.specs.Prelude.{◌≡◌};
ghost use Rattle.tk_streams.specs.declared.short_lines.TheConstants.{MAX_DIGITS, SHORT_LINE};
ghost use Rattle.tk_streams.specs.declared.transfers.TheConstants.{CHUNK};

/// A reader asks a source for 65,536 bytes at a time, a number of 64 bits has at most twenty
/// digits, and a short line holds 128 bytes.
pub fn limits()
    ensures chunk { CHUNK ≡ 65536 }
    ensures digits { MAX_DIGITS ≡ 20 }
    ensures short_line { SHORT_LINE ≡ 128 }
{}
