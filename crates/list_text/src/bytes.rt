// How far bytes of one kind reach.
ghost use Rattle.std.specs.Prelude.{◌≡◌, ◌≤◌, ℕ, Bool, length};
ghost use Rattle.std.specs.List.{prefix_len};

// How many bytes in front pass the test.
pub(crate) fn front<F: Fn(u8) -> bool>(bytes: &[u8], is_of: F) -> usize
    requires { F.IsAlwaysCallable is_of }
    ensures many { (test : ℕ → Bool) → ((b : ℕ) (r : Bool) → F.post is_of b r → r ≡ test b) → result ≡ prefix_len test bytes.now }
    ensures within { result ≤ length bytes.now }
{
    bytes.iter().take_while(|b| is_of(**b)).count()
}
