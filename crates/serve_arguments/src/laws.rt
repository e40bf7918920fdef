// Worked sizes, capacities and pictures, as functions without code.
ghost use Rattle.std.specs.Prelude.{◌≡◌, [], None, Some, codes};
ghost use Rattle.serve_arguments.specs.CachedStates.{cache_report, cache_text, picture_bytes};
ghost use Rattle.serve_arguments.specs.Capacities.{capacity_given, size_of};
ghost use Rattle.serve_arguments.specs.declared.capacities.Capacity.TheVariants as capacities;

/// The numbers of bytes of worked sizes.
pub fn worked_sizes()
    ensures one { size_of (codes "1") ≡ Some 1 }
    ensures one_kib { size_of (codes "1K") ≡ Some 1024 }
    ensures many_mib { size_of (codes "64M") ≡ Some 67108864 }
    ensures leading_zeros { size_of (codes "002G") ≡ Some 2147483648 }
    ensures greatest { size_of (codes "18446744073709551615") ≡ Some 18446744073709551615 }
    ensures most_gib { size_of (codes "17179869183G") ≡ Some 18446744072635809792 }
{}

/// Worked texts that are not sizes.
pub fn worked_misfits()
    ensures zero { size_of (codes "0") ≡ None }
    ensures no_kib { size_of (codes "0K") ≡ None }
    ensures empty { size_of (codes "") ≡ None }
    ensures only_unit { size_of (codes "K") ≡ None }
    ensures other_letter { size_of (codes "12Q") ≡ None }
    ensures small_letter { size_of (codes "12k") ≡ None }
    ensures two_letters { size_of (codes "12KB") ≡ None }
    ensures space { size_of (codes "12 K") ≡ None }
    ensures sign { size_of (codes "+1K") ≡ None }
    ensures fraction { size_of (codes "1.5M") ≡ None }
    ensures too_many_bytes { size_of (codes "18446744073709551616") ≡ None }
    ensures too_many_gib { size_of (codes "17179869184G") ≡ None }
{}

/// The capacities of worked options: a number of states, a size, neither, both.
pub fn worked_capacities()
    ensures states { capacity_given (Some 7) None ≡ Some (capacities.States 7) }
    ensures size { capacity_given None (Some (codes "1M")) ≡ Some (capacities.Bytes 1048576) }
    ensures neither { capacity_given None None ≡ Some (capacities.States 32) }
    ensures both { capacity_given (Some 7) (Some (codes "1M")) ≡ None }
    ensures few { capacity_given (Some 0) None ≡ None }
    ensures many { capacity_given (Some 4097) None ≡ None }
{}

/// The bytes of worked pictures: of 16x16 an 80x80 and two 72x72 planes, of 640x360, which has 40 x 23 macroblocks, a 704x432 and two 384x248
/// planes. One sample more is a macroblock more.
pub fn worked_pictures()
    ensures one_macroblock { picture_bytes (16, 16) ≡ 16768 }
    ensures least { picture_bytes (1, 1) ≡ 16768 }
    ensures wider { picture_bytes (17, 16) ≡ 19200 }
    ensures wide { picture_bytes (640, 360) ≡ 494592 }
    ensures greatest { picture_bytes (16383, 16383) ≡ 406859776 }
{}

/// What a state takes is not reported before as many steps as states, and not without a size, nor with a number of bytes.
pub fn worked_silences()
    ensures unfilled { cache_text 32 (Some (640, 360)) 31 ≡ [] }
    ensures no_size { cache_text 32 None 32 ≡ [] }
    ensures bytes { cache_report (capacities.Bytes 1) (Some (640, 360)) 32 ≡ [] }
{}
