// Two lost pieces: the coefficients by which the other four, in the order of their places, give one of them.
ghost use Rattle.std.specs.Prelude.{◌<◌, length, ◌≢◌, ◌≡◌};
ghost use Rattle.elements.specs.Blended.{blended};
ghost use Rattle.field.specs.Stripe.{lost_row};

use elements::Four;

// The piece at a place, where it and another are lost, of the other four.
#[tactic(auto, using(crate::proofs::LostRows::sum_row, crate::proofs::LostRows::rows_of_first, crate::proofs::LostRows::rows_of_second, crate::proofs::LostRows::rows_of_third, crate::proofs::LostRows::rows_of_fourth, crate::proofs::LostRows::rows_of_p, crate::proofs::LostRows::rows_of_q))]
pub(crate) fn fill_lost(wanted: usize, other: usize, four: &Four, out: &mut [u8])
    requires out_len { length out.old ≡ length four.now.w.now }
    requires lost { (wanted < 6) × ((other < 6) × (wanted ≢ other)) }
    ensures { out.new ≡ blended (lost_row wanted other) four.now }
{
    // This is the table `lost_row` of crate field: 4 is P and 5 is Q. `_` stands for the last place that is left, and the order of the arms matters.
    match (wanted, other) {
        (_, 5) => four.blend::<1, 1, 1, 1>(out),
        (5, 0) => four.blend::<3, 5, 9, 1>(out),
        (5, 1) => four.blend::<3, 6, 10, 2>(out),
        (5, 2) => four.blend::<5, 6, 12, 4>(out),
        (5, 3) => four.blend::<9, 10, 12, 8>(out),
        (5, _) => four.blend::<1, 2, 4, 8>(out),
        (0, 4) => four.blend::<2, 4, 8, 1>(out),
        (1, 4) => four.blend::<142, 2, 4, 142>(out),
        (2, 4) => four.blend::<71, 142, 2, 71>(out),
        (_, 4) => four.blend::<173, 71, 142, 173>(out),
        (4, 0) => four.blend::<3, 5, 9, 1>(out),
        (4, 1) => four.blend::<143, 3, 5, 142>(out),
        (4, 2) => four.blend::<70, 143, 3, 71>(out),
        (4, _) => four.blend::<172, 70, 143, 173>(out),
        (0, 1) => four.blend::<2, 6, 245, 244>(out),
        (0, 2) => four.blend::<245, 247, 166, 167>(out),
        (0, _) => four.blend::<187, 210, 156, 157>(out),
        (1, 0) => four.blend::<3, 7, 244, 244>(out),
        (1, 2) => four.blend::<143, 2, 245, 122>(out),
        (1, _) => four.blend::<123, 245, 166, 221>(out),
        (2, 0) => four.blend::<244, 246, 167, 167>(out),
        (2, 1) => four.blend::<142, 3, 244, 122>(out),
        (2, _) => four.blend::<200, 143, 245, 61>(out),
        (_, 0) => four.blend::<186, 211, 157, 157>(out),
        (_, 1) => four.blend::<122, 244, 167, 221>(out),
        _ => four.blend::<201, 142, 244, 61>(out),
    }
}
