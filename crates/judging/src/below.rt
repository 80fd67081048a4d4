// Tests of every number below one.
ghost use Rattle.std.specs.Prelude.{◌≡◌, ℕ, Bool, ◌<◌};
ghost use Rattle.refusals.specs.Below.{all_below};

// Whether the test holds of every number below n. Each is made, whatever the others say: so the loop has no branch.
pub fn all_below<F: Fn(usize) -> bool>(n: usize, test: F) -> bool
    requires { (i : ℕ) → i < n → F.pre test i }
    ensures { (f : ℕ → Bool) → ((i : ℕ) → (b : Bool) → i < n → F.post test i b → b ≡ f i) → result ≡ all_below f n }
{
    let mut all = true;
    for i in 0..n {
        all &= test(i);
    }
    all
}
