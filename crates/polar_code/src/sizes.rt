// The sizes of a code, from its number of layers.
ghost use Rattle.std.specs.Prelude.{◌≡◌, ◌≤◌};
ghost use Rattle.polar_code.specs.Sizes.{places_of, kernels_of};

// N, how many places a code with n layers has; as many as with 8 layers where n is more.
#[tactic(auto, unfolding(crate::specs::Sizes::places_of))]
pub fn place_count(n: usize) -> usize
    ensures value { result ≡ places_of n }
    ensures upper_bound { result ≤ 256 }
{
    1 << n.min(8)
}

// n × N/2, how many coefficients it has; as many as with 8 layers where n is more.
#[tactic(auto, unfolding(crate::specs::Sizes::places_of, crate::specs::Sizes::kernels_of))]
pub fn kernel_count(n: usize) -> usize
    ensures value { result ≡ kernels_of n }
    ensures upper_bound { result ≤ 1024 }
{
    n.min(8) * (place_count(n) / 2)
}
