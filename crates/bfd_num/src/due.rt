//! Optional due ticks, with None as never.
ghost use Rattle.std.specs.Prelude.{◌≡◌};
ghost use Rattle.bfd_num.specs.Due.{has_come, sooner};

/// Whether a due tick has come at the tick `t`: it is present, and at most `t`. Of moments it says the same.
pub fn has_come(t: u64, due: Option<u64>) -> bool
    ensures { result ≡ has_come t due }
{
    match due {
        Some(due) => due <= t,
        None => false,
    }
}

/// The sooner of two due ticks.
pub fn sooner(a: Option<u64>, b: Option<u64>) -> Option<u64>
    ensures { result ≡ sooner a b }
{
    match (a, b) {
        (Some(a), Some(b)) => Some(a.min(b)),
        (None, other) | (other, None) => other,
    }
}
