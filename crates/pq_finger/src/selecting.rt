ghost use Rattle.std.specs.Prelude.{◌≡◌, ◌≤◌, nat_le, IfSome};
ghost use Rattle.pq_finger.specs.Selecting.{least_after};

/// Whether a finger at this gap is selected after the last selected one, which isn't behind it.
pub fn stands_apart(gap: u64, last: Option<u64>, omega: u32) -> bool
    requires { IfSome last (λ other. other ≤ gap) }
    ensures { result ≡ nat_le (least_after omega last) gap }
{
    match last {
        None => true,
        Some(other) => gap - other >= 2 * u64::from(omega),
    }
}
