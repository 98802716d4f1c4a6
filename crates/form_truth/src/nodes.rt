// The truth of nodes with children.
ghost use Rattle.std.specs.Prelude.{◌≡◌, length, All, IsTrue, nat_lt};
ghost use Rattle.std.specs.List.{list_all, list_any};
ghost use Rattle.form_truth.specs.Truth.{is_true};

/// Whether all of these hold.
pub fn all_hold(truths: &[bool], numbers: &[u32]) -> bool
    requires { IsTrue (list_all (λ k. nat_lt k (length truths.now)) numbers.now) }
    ensures { result ≡ list_all (is_true truths.now) numbers.now }
{
    for k in numbers {
        if !truths[*k as usize] {
            return false;
        }
    }
    true
}

/// Whether some of these hold.
pub fn any_holds(truths: &[bool], numbers: &[u32]) -> bool
    requires { IsTrue (list_all (λ k. nat_lt k (length truths.now)) numbers.now) }
    ensures { result ≡ list_any (is_true truths.now) numbers.now }
{
    for k in numbers {
        if truths[*k as usize] {
            return true;
        }
    }
    false
}
