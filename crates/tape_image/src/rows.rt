ghost use Rattle.std.specs.Prelude.{◌≡◌, [], ◌∷◌, ◌++◌, take, true, false};
ghost use Rattle.tape_medium.specs.Object.{Block, Mark};
ghost use Rattle.tape_image.specs.declared.ending.ImageEnd.TheVariants.{WholeEnd, CutTail, Faulty};
ghost use Rattle.tape_image.specs.declared.fault.ImageFault.TheVariants.{UnknownClass, TooLong, UnequalLengths};
ghost use Rattle.tape_image.specs.Images.{object_bytes};
ghost use Rattle.tape_image.specs.Limits.{part_limit};
ghost use Rattle.tape_image.specs.Parts.{Partial, Complete, Gap, End, Invalid, image_part, is_longer};
ghost use Rattle.tape_image.specs.Reading.{Waiting, Ended, Broken, Reads, image_end};
ghost use Rattle.tape_image.specs.Rows.{even, odd, mark, gap, end, hi, three, at_4};

/// Worked rows: parts, as they are written and as they are read.
#[tactic(auto, unfolding(crate::specs::Parts::image_part))]
pub fn part_rows()
    ensures written_even { object_bytes (Block (0x68 ∷ 0x69 ∷ [])) ≡ even }
    ensures written_odd { object_bytes (Block (0x6F ∷ 0x64 ∷ 0x64 ∷ [])) ≡ odd }
    ensures written_mark { object_bytes Mark ≡ mark }
    ensures read_even { image_part even ≡ Complete (Block (0x68 ∷ 0x69 ∷ [])) 10 }
    ensures read_odd { image_part (odd ++ mark) ≡ Complete (Block (0x6F ∷ 0x64 ∷ 0x64 ∷ [])) 12 }
    ensures read_mark { image_part (mark ++ even) ≡ Complete Mark 4 }
    ensures read_gap { image_part (gap ++ odd) ≡ Gap }
    ensures read_end { image_part (end ++ even) ≡ End }
    ensures longest_part { part_limit ≡ 1048584 }
{}

/// Worked rows: faults.
#[tactic(auto, unfolding(crate::specs::Parts::image_part))]
pub fn fault_rows()
    ensures other_length_behind { image_part (2 ∷ 0 ∷ 0 ∷ 0 ∷ 0x68 ∷ 0x69 ∷ 3 ∷ 0 ∷ 0 ∷ 0 ∷ []) ≡ Invalid UnequalLengths }
    ensures no_pad { image_part (3 ∷ 0 ∷ 0 ∷ 0 ∷ 0x6F ∷ 0x64 ∷ 0x64 ∷ 3 ∷ 0 ∷ 0 ∷ 0 ∷ 0 ∷ []) ≡ Invalid UnequalLengths }
    ensures too_long { image_part (1 ∷ 0 ∷ 0x10 ∷ 0 ∷ []) ≡ Invalid TooLong }
    ensures longest { image_part (0 ∷ 0 ∷ 0x10 ∷ 0 ∷ []) ≡ Partial 1048584 }
    ensures of_64_kibibytes { image_part (0 ∷ 0 ∷ 1 ∷ 0 ∷ []) ≡ Partial 65544 }
    ensures not_longer { is_longer 65536 (image_part (0 ∷ 0 ∷ 1 ∷ 0 ∷ [])) ≡ false }
    ensures longer { is_longer 65536 (image_part (1 ∷ 0 ∷ 1 ∷ 0 ∷ [])) ≡ true }
    ensures whole_not_longer { is_longer 3 (image_part odd) ≡ false }
    ensures whole_longer { is_longer 2 (image_part odd) ≡ true }
    ensures no_block { is_longer 2 (image_part mark) ≡ false }
    ensures longest_of_class_0 { image_part (0xFF ∷ 0xFF ∷ 0xFF ∷ 0x0F ∷ []) ≡ Invalid TooLong }
    ensures bad_data_record { image_part (2 ∷ 0 ∷ 0 ∷ 0x80 ∷ []) ≡ Invalid UnknownClass }
    ensures private_record { image_part (2 ∷ 0 ∷ 0 ∷ 0x10 ∷ []) ≡ Invalid UnknownClass }
    ensures half_gap { image_part (0xFF ∷ 0xFF ∷ 0xFE ∷ 0xFF ∷ []) ≡ Invalid UnknownClass }
{}

/// Worked rows: each place at which a block of three bytes may be cut, and that it is whole after the last.
#[tactic(auto, unfolding(crate::specs::Parts::image_part))]
pub fn cut_rows()
    ensures nothing { image_part [] ≡ Partial 4 }
    ensures at_1 { image_part (take 1 odd) ≡ Partial 4 }
    ensures at_2 { image_part (take 2 odd) ≡ Partial 4 }
    ensures at_3 { image_part (take 3 odd) ≡ Partial 4 }
    ensures at_4 { image_part (take 4 odd) ≡ Partial 12 }
    ensures at_5 { image_part (take 5 odd) ≡ Partial 12 }
    ensures at_6 { image_part (take 6 odd) ≡ Partial 12 }
    ensures at_7 { image_part (take 7 odd) ≡ Partial 12 }
    ensures at_8 { image_part (take 8 odd) ≡ Partial 12 }
    ensures at_9 { image_part (take 9 odd) ≡ Partial 12 }
    ensures at_10 { image_part (take 10 odd) ≡ Partial 12 }
    ensures at_11 { image_part (take 11 odd) ≡ Partial 12 }
    ensures whole { image_part (take 12 odd) ≡ Complete (Block (0x6F ∷ 0x64 ∷ 0x64 ∷ [])) 12 }
{}

/// Worked rows: what is read of whole images, and how they end.
pub fn image_rows()
    ensures empty { Reads 0 [] [] (Waiting 0 []) }
    ensures even_mark_odd { Reads 0 (even ++ mark ++ odd) three (Waiting 26 []) }
    ensures behind_a_gap { Reads 0 (gap ++ even) (at_4 ∷ []) (Waiting 14 []) }
    ensures before_the_end_mark { Reads 0 (even ++ end ++ odd) (hi ∷ []) (Ended 10) }
    ensures before_a_fault { Reads 0 (even ++ 2 ∷ 0 ∷ 0 ∷ 0x80 ∷ []) (hi ∷ []) (Broken 10 UnknownClass) }
    ensures whole_end { image_end 3 (Waiting 26 []) ≡ WholeEnd 26 }
    ensures marked_end { image_end 1 (Ended 10) ≡ WholeEnd 10 }
    ensures cut_tail { image_end 1 (Waiting 10 (3 ∷ 0 ∷ 0 ∷ 0 ∷ 0x6F ∷ [])) ≡ CutTail 10 5 }
    ensures fault { image_end 1 (Broken 10 UnknownClass) ≡ Faulty UnknownClass 1 10 }
{}

/// Worked rows: how an image ends whose third object, after two that take 14 bytes, is cut at each place.
pub fn tail_rows()
    ensures at_1 { image_end 2 (Waiting 14 (take 1 odd)) ≡ CutTail 14 1 }
    ensures at_2 { image_end 2 (Waiting 14 (take 2 odd)) ≡ CutTail 14 2 }
    ensures at_3 { image_end 2 (Waiting 14 (take 3 odd)) ≡ CutTail 14 3 }
    ensures at_4 { image_end 2 (Waiting 14 (take 4 odd)) ≡ CutTail 14 4 }
    ensures at_5 { image_end 2 (Waiting 14 (take 5 odd)) ≡ CutTail 14 5 }
    ensures at_6 { image_end 2 (Waiting 14 (take 6 odd)) ≡ CutTail 14 6 }
    ensures at_7 { image_end 2 (Waiting 14 (take 7 odd)) ≡ CutTail 14 7 }
    ensures at_8 { image_end 2 (Waiting 14 (take 8 odd)) ≡ CutTail 14 8 }
    ensures at_9 { image_end 2 (Waiting 14 (take 9 odd)) ≡ CutTail 14 9 }
    ensures at_10 { image_end 2 (Waiting 14 (take 10 odd)) ≡ CutTail 14 10 }
    ensures at_11 { image_end 2 (Waiting 14 (take 11 odd)) ≡ CutTail 14 11 }
{}
