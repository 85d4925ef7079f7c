// The exported C functions, declared in include/tigbayon.h: all calls of paper 01 ('Lines, masks, orders' to 'The register unit'), those of
// prepared networks, and of paper 02 the bit planes, tiles, subwords, planes of pixels, permutations by groups, the status and continued runs of the register
// unit, and frames of four channels. Each hands its arguments to one call. No logic is here, and each promise is that call's. The host lends its register bank, to
// a frame four; the bank, or its registers, are lent on.
#![tactic(auto)]

ghost use Rattle.std.specs.Prelude.{◌≡◌, true, false, [], ◌∷◌, reverse};
ghost use Rattle.network.specs.Stage.{falling, rising, butterfly_of, inverse_of};
ghost use Rattle.network.specs.Word.{exchanges_of};
ghost use Rattle.network.specs.Calls.{network_answer, prepare_answer, decode_answer};
ghost use Rattle.routing.specs.Lists.{butterfly_fits, butterfly_alone, inverse_fits, inverse_alone};
ghost use Rattle.runs.specs.StatusByte.{status_of, enable_lent, acknowledge_lent, interrupt_of};
ghost use Rattle.runs.specs.Run.{run_of, continue_of, drop_lent};
ghost use Rattle.frame.specs.Frame.{brought_by, leaving_all, frame_of};
ghost use Rattle.unit.specs.Bank.{leaving};
ghost use Rattle.unit.specs.Calls.{operate_lent, read_of, write_lent};
ghost use Rattle.pack.specs.Calls.{pack_answer, packed_out, unpack_answer, unpacked_out};
ghost use Rattle.planes.specs.Planes.{planes_of, words_of_planes};
ghost use Rattle.tiles.specs.Tile.{moved, transpose_rule, left_rule, right_rule, columns_rule, rows_rule};
ghost use Rattle.subwords.specs.Subword.{check_of, exchange_pairs_of, excheck_of, mix_left_of, mix_right_of, subword_answer};
ghost use Rattle.despeckle.specs.Calls.{despeckle_answer, despeckled_out};
ghost use Rattle.grouping.specs.Calls.{groups_answer, AnswersGroups};
ghost use Rattle.permute.specs.Calls.{route_answer, AnswersFirst, one_answer, AnswersAlone};
ghost use Rattle.gather.specs.Gather.{gather_of, scatter_of, group_of, answer_of};

#[unsafe(no_mangle)]
pub extern "C" fn tb_gather(width: u32, mask: u64, word: u64) -> gather::Gathered
    ensures { result ≡ answer_of gather_of width mask word }
{
    gather::gather(width, mask, word)
}

#[unsafe(no_mangle)]
pub extern "C" fn tb_scatter(width: u32, mask: u64, word: u64) -> gather::Gathered
    ensures { result ≡ answer_of scatter_of width mask word }
{
    gather::scatter(width, mask, word)
}

#[unsafe(no_mangle)]
pub extern "C" fn tb_group(width: u32, mask: u64, word: u64) -> gather::Gathered
    ensures { result ≡ answer_of group_of width mask word }
{
    gather::group(width, mask, word)
}

#[unsafe(no_mangle)]
pub extern "C" fn tb_butterfly(width: u32, stages: &[u32; 6], word: u64) -> network::Carried
    ensures { result ≡ network_answer butterfly_of width (record { stages = stages.entry.now }) word }
{
    let stages = *stages;
    network::butterfly(width, network::Controls { stages }, word)
}

#[unsafe(no_mangle)]
pub extern "C" fn tb_inverse(width: u32, stages: &[u32; 6], word: u64) -> network::Carried
    ensures { result ≡ network_answer inverse_of width (record { stages = stages.entry.now }) word }
{
    let stages = *stages;
    network::inverse(width, network::Controls { stages }, word)
}

#[unsafe(no_mangle)]
pub extern "C" fn tb_prepare_butterfly(width: u32, stages: &[u32; 6]) -> network::Prepared
    ensures { result ≡ prepare_answer false width (record { stages = stages.entry.now }) }
{
    let stages = *stages;
    network::prepare_butterfly(width, network::Controls { stages })
}

#[unsafe(no_mangle)]
pub extern "C" fn tb_prepare_inverse(width: u32, stages: &[u32; 6]) -> network::Prepared
    ensures { result ≡ prepare_answer true width (record { stages = stages.entry.now }) }
{
    let stages = *stages;
    network::prepare_inverse(width, network::Controls { stages })
}

#[unsafe(no_mangle)]
pub extern "C" fn tb_butterfly_prepared(swaps: &[u64; 6], word: u64) -> u64
    ensures { result ≡ exchanges_of (falling 6) swaps.now word }
{
    network::butterfly_prepared(*swaps, word)
}

#[unsafe(no_mangle)]
pub extern "C" fn tb_inverse_prepared(swaps: &[u64; 6], word: u64) -> u64
    ensures { result ≡ exchanges_of (rising 6) (reverse swaps.now) word }
{
    network::inverse_prepared(*swaps, word)
}

#[unsafe(no_mangle)]
pub extern "C" fn tb_decode(width: u32, mask: u64) -> network::Decoded
    ensures { result ≡ decode_answer width mask }
{
    network::decode(width, mask)
}

#[unsafe(no_mangle)]
pub extern "C" fn tb_route(width: u32, permutation: &[u8]) -> permute::Routed
    ensures value { result ≡ route_answer width permutation.now }
    ensures first { AnswersFirst width permutation.now result }
{
    permute::route(width, permutation)
}

#[unsafe(no_mangle)]
pub extern "C" fn tb_route_butterfly(width: u32, permutation: &[u8]) -> permute::RoutedOne
    ensures value { result ≡ one_answer butterfly_fits butterfly_alone width permutation.now }
    ensures alone { AnswersAlone butterfly_of width permutation.now result }
{
    permute::route_butterfly(width, permutation)
}

#[unsafe(no_mangle)]
pub extern "C" fn tb_route_inverse(width: u32, permutation: &[u8]) -> permute::RoutedOne
    ensures value { result ≡ one_answer inverse_fits inverse_alone width permutation.now }
    ensures alone { AnswersAlone inverse_of width permutation.now result }
{
    permute::route_inverse(width, permutation)
}

#[unsafe(no_mangle)]
pub extern "C" fn tb_route_groups(width: u32, permutation: &[u8]) -> grouping::Masks
    ensures value { result ≡ groups_answer width permutation.now }
    ensures permutes { AnswersGroups width permutation.now result }
{
    grouping::route_groups(width, permutation)
}

#[unsafe(no_mangle)]
pub extern "C" fn tb_pack(
    mask: u64,
    words: &[u64],
    a: usize,
    b: usize,
    out: &mut [u64],
) -> pack::Packed
    ensures { (result ≡ pack_answer mask words.now a b out.old)
        × (out.new ≡ packed_out mask words.now a b out.old) }
{
    pack::pack(mask, words, a, b, out)
}

#[unsafe(no_mangle)]
pub extern "C" fn tb_unpack(
    mask: u64,
    packed: &[u64],
    a: usize,
    b: usize,
    out: &mut [u64],
) -> pack::Packed
    ensures { (result ≡ unpack_answer mask packed.now a b out.old)
        × (out.new ≡ unpacked_out mask packed.now a b out.old) }
{
    pack::unpack(mask, packed, a, b, out)
}

#[unsafe(no_mangle)]
pub extern "C" fn tb_to_planes(words: &[u64; 8]) -> planes::Planes
    ensures { result ≡ record { words = planes_of words.entry.now } }
{
    planes::to_planes(*words)
}

#[unsafe(no_mangle)]
pub extern "C" fn tb_from_planes(planes: &[u64; 8]) -> planes::Planes
    ensures { result ≡ record { words = words_of_planes planes.now } }
{
    planes::from_planes(*planes)
}

#[unsafe(no_mangle)]
pub extern "C" fn tb_tile_transpose(tile: u64) -> u64
    ensures { result ≡ moved transpose_rule tile }
{
    tiles::transpose(tile)
}

#[unsafe(no_mangle)]
pub extern "C" fn tb_tile_turn_left(tile: u64) -> u64
    ensures { result ≡ moved left_rule tile }
{
    tiles::turn_left(tile)
}

#[unsafe(no_mangle)]
pub extern "C" fn tb_tile_turn_right(tile: u64) -> u64
    ensures { result ≡ moved right_rule tile }
{
    tiles::turn_right(tile)
}

#[unsafe(no_mangle)]
pub extern "C" fn tb_tile_mirror_columns(tile: u64) -> u64
    ensures { result ≡ moved columns_rule tile }
{
    tiles::mirror_columns(tile)
}

#[unsafe(no_mangle)]
pub extern "C" fn tb_tile_mirror_rows(tile: u64) -> u64
    ensures { result ≡ moved rows_rule tile }
{
    tiles::mirror_rows(tile)
}

#[unsafe(no_mangle)]
pub extern "C" fn tb_check(size: u32, first: u64, second: u64) -> network::Carried
    ensures { result ≡ subword_answer size (check_of size first second) }
{
    subwords::check(size, first, second)
}

#[unsafe(no_mangle)]
pub extern "C" fn tb_excheck(size: u32, first: u64, second: u64) -> network::Carried
    ensures { result ≡ subword_answer size (excheck_of size first second) }
{
    subwords::excheck(size, first, second)
}

#[unsafe(no_mangle)]
pub extern "C" fn tb_mix_left(size: u32, first: u64, second: u64) -> network::Carried
    ensures { result ≡ subword_answer size (mix_left_of size first second) }
{
    subwords::mix_left(size, first, second)
}

#[unsafe(no_mangle)]
pub extern "C" fn tb_mix_right(size: u32, first: u64, second: u64) -> network::Carried
    ensures { result ≡ subword_answer size (mix_right_of size first second) }
{
    subwords::mix_right(size, first, second)
}

#[unsafe(no_mangle)]
pub extern "C" fn tb_exchange(size: u32, word: u64) -> network::Carried
    ensures { result ≡ subword_answer size (exchange_pairs_of size word) }
{
    subwords::exchange_pairs(size, word)
}

#[unsafe(no_mangle)]
pub extern "C" fn tb_despeckle(plane: &[u64], rows: usize, words: usize, out: &mut [u64]) -> u8
    ensures { (result ≡ despeckle_answer plane.now rows words out.old)
        × (out.new ≡ despeckled_out plane.now rows words out.old) }
{
    despeckle::despeckle(plane, rows, words, out)
}

// One operation on a lent bank.
#[unsafe(no_mangle)]
pub extern "C" fn tb_operate(
    bank: &mut unit::Bank,
    kind: u8,
    r1: u8,
    r2: u8,
    r3: u8,
) -> unit::Cycles
    ensures { leaving result bank.new ≡ operate_lent bank.old kind r1 r2 r3 }
{
    unit::operate(&mut bank.registers, kind, r1, r2, r3)
}

// A run on a lent bank.
#[unsafe(no_mangle)]
pub extern "C" fn tb_run(bank: &mut unit::Bank, ops: &[u8], budget: u32) -> runs::Outcome
    ensures { leaving result bank.new ≡ run_of bank.old ops.now budget }
{
    runs::run(bank, ops, budget)
}

// A run that waits on a lent bank, continued.
#[unsafe(no_mangle)]
pub extern "C" fn tb_continue(bank: &mut unit::Bank, ops: &[u8], budget: u32) -> runs::Outcome
    ensures { leaving result bank.new ≡ continue_of bank.old ops.now budget }
{
    runs::continue_run(bank, ops, budget)
}

// Four channels in one frame, each on a lent bank.
#[unsafe(no_mangle)]
pub extern "C" fn tb_frame(
    bank0: &mut unit::Bank,
    bank1: &mut unit::Bank,
    bank2: &mut unit::Bank,
    bank3: &mut unit::Bank,
    list0: &[u8],
    list1: &[u8],
    list2: &[u8],
    list3: &[u8],
    guarantees: &[u32; 4],
    cycles: u32,
) -> frame::Frame
    ensures { leaving_all result (bank0.new ∷ bank1.new ∷ bank2.new ∷ bank3.new ∷ [])
        ≡ frame_of (brought_by (bank0.old ∷ bank1.old ∷ bank2.old ∷ bank3.old ∷ [])
        (list0.now ∷ list1.now ∷ list2.now ∷ list3.now ∷ []) guarantees.now) cycles }
{
    frame::run_frame(
        bank0,
        bank1,
        bank2,
        bank3,
        [list0, list1, list2, list3],
        guarantees,
        cycles,
    )
}

// A lent bank that no longer waits.
#[unsafe(no_mangle)]
pub extern "C" fn tb_drop(bank: &mut unit::Bank)
    ensures { bank.new ≡ drop_lent bank.old }
{
    runs::drop(&mut bank.registers);
}

// The value of one general register of a lent bank.
#[unsafe(no_mangle)]
pub extern "C" fn tb_read(bank: &unit::Bank, number: u8) -> unit::Register
    ensures { result ≡ read_of bank.now.registers number }
{
    unit::read(&bank.registers, number)
}

// A value into one general register of a lent bank.
#[unsafe(no_mangle)]
pub extern "C" fn tb_write(bank: &mut unit::Bank, number: u8, value: u64) -> u8
    ensures { leaving result bank.new ≡ write_lent bank.old number value }
{
    unit::write(&mut bank.registers, number, value)
}

// The status of a lent bank.
#[unsafe(no_mangle)]
pub extern "C" fn tb_status(bank: &unit::Bank) -> u8
    ensures { result ≡ status_of bank.now.registers }
{
    runs::status(&bank.registers)
}

// A byte into the enable byte of a lent bank.
#[unsafe(no_mangle)]
pub extern "C" fn tb_enable(bank: &mut unit::Bank, byte: u8)
    ensures { bank.new ≡ enable_lent bank.old byte }
{
    runs::enable(&mut bank.registers, byte);
}

// Status bits of a lent bank cleared.
#[unsafe(no_mangle)]
pub extern "C" fn tb_acknowledge(bank: &mut unit::Bank, byte: u8)
    ensures { bank.new ≡ acknowledge_lent bank.old byte }
{
    runs::acknowledge(&mut bank.registers, byte);
}

// The interrupt line of a lent bank.
#[unsafe(no_mangle)]
pub extern "C" fn tb_interrupt(bank: &unit::Bank) -> u8
    ensures { result ≡ interrupt_of bank.now.registers }
{
    runs::interrupt(&bank.registers)
}
