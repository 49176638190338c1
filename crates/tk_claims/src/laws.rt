//! Laws of what a run has of each worker, and of what the seats of a claim drew.
ghost use Rattle.std.specs.Prelude.{◌≡◌, ◌<◌, ℕ, List, Some, slice_get};
ghost use Rattle.tk_claims.specs.Claims.{Claims};
ghost use Rattle.tk_claims.specs.Parts.{EachHasItsList};

/// Between what came before and what came after, a run has of each worker its list, in order and no
/// more. Worker 0 has what came before and after.
pub fn each_worker_has_its_list()
    ensures { EachHasItsList }
{}

/// How many numbers the seats of a claim have drawn follows from their lists, and each seat drew its
/// numbers in increasing order.
pub fn claims_are_exact()
    ensures number { (lists : List (List ℕ)) (n m : ℕ) → Claims lists n → Claims lists m → n ≡ m }
    ensures order { (lists : List (List ℕ)) (numbers : List ℕ) (n seat i j x y : ℕ)
        → Claims lists n → slice_get lists seat ≡ Some numbers → slice_get numbers i ≡ Some x
        → slice_get numbers j ≡ Some y → i < j → x < y }
{}
