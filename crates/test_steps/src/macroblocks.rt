//! The macroblocks of a small stream, as lines and as objects.

use macroblock_lists::{Form, Wanted, What, write_list};
use std::alloc::Global;
use std::process::Abort;
use std::test::Fail;
use stream_files::{Bytes, Packet};
use vp8_tables::Tables;

/// Key packets with an inter packet after each, made for the conformance streams `normal-filter-levels`, `sizes-1-to-40` and
/// `simple-filter-sharpness`. Macroblocks of the inter packets are split in each of the four ways.
const PACKETS: [&str; 6] = [
    "1002009d012a2000100001402f1f365b2c0995658788194b8000bb147f061c7d9bfe7f1b16b7f7d67fe06816811fe2fdff95f401ff9e359fc06261562c0f4b8fc4ffe002e89eaaf8bfab7b080fd98a0c32f6000000",
    "110800050046fdacae73f058001973631d7236430c5e016934f3fee93f74131fbcf4ebbee19fffe566d1ae5fbe89d4b5e401cbbf8763ffbbfd63e7e25e8767ffe7a800e98bdd085057f6f7dca3caf54d1fff6fdb55fedc04ccea9ff6d854cb1a0e9508c9dbb043efb0f6b60ceb07c7a28000",
    "b002009d012a0a001d004cc01b9c9f5feb9e767f80081276ca3843bc1d7000bf9bfdf3a955c601f437f7afff93afe65fdffcac7ff3ce457fce7fe24dfc806bf728f00200",
    "f10200147015eff47dd00025570fecdcc0417a22beb77dc000000000",
    "f002009d012a1000100010600b77d851c800163f1ecb70bf3dd895e67fbd9680000000",
    "7103004e808c70652d84d02e908db1557d00b64420a19effc1971c1c00000000",
];

/// The lines that the parser of conformance/vp8 finds.
const LINES: &str = "\
packet\tcolumn\trow\tsegment\tskip\treference\tluma\tchroma\tparts\tsplit\tvector\tquantizer\tlevel\tinterior_limit\thev_threshold\tmbedge_limit\tsub_bedge_limit\tinner\tblocks\tcoefficients\tgreatest\tmode_bits\ttoken_bits\n\
# packet 0: key_frame=1 version=0 show_frame=1 first_part_size=16 width=32 horizontal_scale=0 height=16 vertical_scale=0 color_space=0 clamping_type=0 segmentation_enabled=0 filter_type=0 loop_filter_level=5 sharpness_level=0 loop_filter_adj_enable=0 log2_nbr_of_dct_partitions=0 y_ac_qi=23 y_dc_delta=-1 y2_dc_delta=-12 y2_ac_delta=6 uv_dc_delta=-6 uv_ac_delta=-2 refresh_entropy_probs=1 mb_no_coeff_skip=0\n\
0\t0\t0\t0\t0\tintra\tV_PRED\tTM_PRED\t-\t-\t-\t23\t5\t5\t0\t19\t15\t1\t0001010001010000110101000\t15\t6\t7\t189\n\
0\t1\t0\t0\t0\tintra\tTM_PRED\tDC_PRED\t-\t-\t-\t23\t5\t5\t0\t19\t15\t1\t0101100001111011100001110\t28\t6\t4\t261\n\
# packet 1: key_frame=0 version=0 show_frame=1 first_part_size=64 segmentation_enabled=0 filter_type=0 loop_filter_level=5 sharpness_level=0 loop_filter_adj_enable=0 log2_nbr_of_dct_partitions=0 y_ac_qi=8 y_dc_delta=-11 y2_dc_delta=-13 y2_ac_delta=0 uv_dc_delta=6 uv_ac_delta=-5 refresh_golden_frame=1 refresh_alternate_frame=0 copy_buffer_to_arf=1 sign_bias_golden=1 sign_bias_alternate=1 refresh_entropy_probs=0 refresh_last=0 mb_no_coeff_skip=0 prob_intra=50 prob_last=59 prob_gf=154\n\
1\t0\t0\t0\t0\tlast\tmv_split\t-\t-858:-3,-858:-3,-3:5,-3:5,-858:-3,-858:-3,-3:5,-3:5,-858:-3,-858:-3,-858:-3,-858:-3,-858:-3,-858:-3,-858:-3,-858:-3\tmv_quarters\t-858:-3\t8\t5\t5\t0\t19\t15\t1\t1110100101010010010110100\t21\t10\t53\t203\n\
1\t1\t0\t0\t0\tlast\tmv_split\t-\t0:0,-843:664,-131:-909,0:0,0:0,0:0,-129:378,-133:-9,-858:-3,0:0,-133:-686,-128:396,-858:-3,-135:-68,762:1,762:1\tMV_16\t762:1\t8\t5\t5\t0\t19\t15\t1\t1011101110011011101001000\t25\t6\t283\t152\n\
# packet 2: key_frame=1 version=0 show_frame=1 first_part_size=21 width=10 horizontal_scale=0 height=29 vertical_scale=0 color_space=0 clamping_type=1 segmentation_enabled=0 filter_type=0 loop_filter_level=51 sharpness_level=0 loop_filter_adj_enable=0 log2_nbr_of_dct_partitions=0 y_ac_qi=13 y_dc_delta=-9 y2_dc_delta=2 y2_ac_delta=15 uv_dc_delta=-7 uv_ac_delta=-14 refresh_entropy_probs=0 mb_no_coeff_skip=1 prob_skip_false=68\n\
2\t0\t0\t0\t1\tintra\tDC_PRED\tV_PRED\t-\t-\t-\t13\t51\t51\t2\t157\t153\t0\t0000000000000000000000000\t0\t0\t5\t0\n\
2\t0\t1\t0\t0\tintra\tV_PRED\tV_PRED\t-\t-\t-\t13\t51\t51\t2\t157\t153\t1\t0101001101011010000010110\t24\t10\t8\t280\n\
# packet 3: key_frame=0 version=0 show_frame=1 first_part_size=23 segmentation_enabled=0 filter_type=0 loop_filter_level=20 sharpness_level=3 loop_filter_adj_enable=1 ref_frame_delta=0,0,0,0 mb_mode_delta=0,0,0,0 log2_nbr_of_dct_partitions=0 y_ac_qi=5 y_dc_delta=0 y2_dc_delta=-14 y2_ac_delta=-15 uv_dc_delta=4 uv_ac_delta=15 refresh_golden_frame=1 refresh_alternate_frame=1 sign_bias_golden=1 sign_bias_alternate=0 refresh_entropy_probs=1 refresh_last=0 mb_no_coeff_skip=1 prob_skip_false=139 prob_intra=160 prob_last=169 prob_gf=222\n\
3\t0\t0\t0\t1\taltref\tmv_near\t-\t-\t-\t0:0\t5\t20\t6\t2\t50\t46\t0\t0000000000000000000000000\t0\t0\t14\t0\n\
3\t0\t1\t0\t1\tlast\tmv_split\t-\t0:0,0:0,0:0,0:0,0:0,0:0,0:0,0:0,0:0,0:0,0:0,0:0,0:0,0:0,0:0,0:0\tmv_top_bottom\t0:0\t5\t20\t6\t2\t50\t46\t1\t0000000000000000000000000\t0\t0\t19\t0\n\
# packet 4: key_frame=1 version=0 show_frame=1 first_part_size=23 width=16 horizontal_scale=0 height=16 vertical_scale=0 color_space=0 clamping_type=0 segmentation_enabled=0 filter_type=1 loop_filter_level=1 sharpness_level=4 loop_filter_adj_enable=0 log2_nbr_of_dct_partitions=0 y_ac_qi=5 y_dc_delta=7 y2_dc_delta=15 y2_ac_delta=8 uv_dc_delta=4 uv_ac_delta=-12 refresh_entropy_probs=0 mb_no_coeff_skip=1 prob_skip_false=215\n\
4\t0\t0\t0\t1\tintra\tB_PRED\tH_PRED\tB_RD_PRED,B_HU_PRED,B_DC_PRED,B_VE_PRED,B_TM_PRED,B_TM_PRED,B_HU_PRED,B_VR_PRED,B_LD_PRED,B_TM_PRED,B_TM_PRED,B_LD_PRED,B_LD_PRED,B_VR_PRED,B_LD_PRED,B_HE_PRED\t-\t-\t5\t1\t1\t0\t7\t3\t1\t0000000000000000000000000\t0\t0\t90\t0\n\
# packet 5: key_frame=0 version=0 show_frame=1 first_part_size=27 segmentation_enabled=0 filter_type=1 loop_filter_level=14 sharpness_level=4 loop_filter_adj_enable=0 log2_nbr_of_dct_partitions=0 y_ac_qi=17 y_dc_delta=-1 y2_dc_delta=0 y2_ac_delta=9 uv_dc_delta=-2 uv_ac_delta=6 refresh_golden_frame=0 refresh_alternate_frame=0 copy_buffer_to_golden=2 copy_buffer_to_arf=1 sign_bias_golden=1 sign_bias_alternate=0 refresh_entropy_probs=1 refresh_last=0 mb_no_coeff_skip=1 prob_skip_false=127 prob_intra=129 prob_last=83 prob_gf=217\n\
5\t0\t0\t0\t1\tgolden\tmv_split\t-\t-94:555,-94:555,0:0,0:0,-94:555,-94:555,0:0,0:0,-94:555,-94:555,0:0,0:0,-94:555,-94:555,0:0,0:0\tmv_left_right\t0:0\t17\t14\t5\t0\t37\t33\t1\t0000000000000000000000000\t0\t0\t37\t0\n\
";

/// The objects that it finds.
const OBJECTS: &str = "\
{\"packet\":0,\"column\":0,\"row\":0,\"segment\":0,\"skip\":0,\"reference\":\"intra\",\"luma\":\"V_PRED\",\"chroma\":\"TM_PRED\",\"parts\":null,\"split\":null,\"vector\":null,\"quantizer\":23,\"level\":5,\"interior_limit\":5,\"hev_threshold\":0,\"mbedge_limit\":19,\"sub_bedge_limit\":15,\"inner\":1,\"blocks\":\"0001010001010000110101000\",\"coefficients\":15,\"greatest\":6,\"mode_bits\":7,\"token_bits\":189}\n\
{\"packet\":0,\"column\":1,\"row\":0,\"segment\":0,\"skip\":0,\"reference\":\"intra\",\"luma\":\"TM_PRED\",\"chroma\":\"DC_PRED\",\"parts\":null,\"split\":null,\"vector\":null,\"quantizer\":23,\"level\":5,\"interior_limit\":5,\"hev_threshold\":0,\"mbedge_limit\":19,\"sub_bedge_limit\":15,\"inner\":1,\"blocks\":\"0101100001111011100001110\",\"coefficients\":28,\"greatest\":6,\"mode_bits\":4,\"token_bits\":261}\n\
{\"packet\":1,\"column\":0,\"row\":0,\"segment\":0,\"skip\":0,\"reference\":\"last\",\"luma\":\"mv_split\",\"chroma\":null,\"parts\":[[-858,-3],[-858,-3],[-3,5],[-3,5],[-858,-3],[-858,-3],[-3,5],[-3,5],[-858,-3],[-858,-3],[-858,-3],[-858,-3],[-858,-3],[-858,-3],[-858,-3],[-858,-3]],\"split\":\"mv_quarters\",\"vector\":[-858,-3],\"quantizer\":8,\"level\":5,\"interior_limit\":5,\"hev_threshold\":0,\"mbedge_limit\":19,\"sub_bedge_limit\":15,\"inner\":1,\"blocks\":\"1110100101010010010110100\",\"coefficients\":21,\"greatest\":10,\"mode_bits\":53,\"token_bits\":203}\n\
{\"packet\":1,\"column\":1,\"row\":0,\"segment\":0,\"skip\":0,\"reference\":\"last\",\"luma\":\"mv_split\",\"chroma\":null,\"parts\":[[0,0],[-843,664],[-131,-909],[0,0],[0,0],[0,0],[-129,378],[-133,-9],[-858,-3],[0,0],[-133,-686],[-128,396],[-858,-3],[-135,-68],[762,1],[762,1]],\"split\":\"MV_16\",\"vector\":[762,1],\"quantizer\":8,\"level\":5,\"interior_limit\":5,\"hev_threshold\":0,\"mbedge_limit\":19,\"sub_bedge_limit\":15,\"inner\":1,\"blocks\":\"1011101110011011101001000\",\"coefficients\":25,\"greatest\":6,\"mode_bits\":283,\"token_bits\":152}\n\
{\"packet\":2,\"column\":0,\"row\":0,\"segment\":0,\"skip\":1,\"reference\":\"intra\",\"luma\":\"DC_PRED\",\"chroma\":\"V_PRED\",\"parts\":null,\"split\":null,\"vector\":null,\"quantizer\":13,\"level\":51,\"interior_limit\":51,\"hev_threshold\":2,\"mbedge_limit\":157,\"sub_bedge_limit\":153,\"inner\":0,\"blocks\":\"0000000000000000000000000\",\"coefficients\":0,\"greatest\":0,\"mode_bits\":5,\"token_bits\":0}\n\
{\"packet\":2,\"column\":0,\"row\":1,\"segment\":0,\"skip\":0,\"reference\":\"intra\",\"luma\":\"V_PRED\",\"chroma\":\"V_PRED\",\"parts\":null,\"split\":null,\"vector\":null,\"quantizer\":13,\"level\":51,\"interior_limit\":51,\"hev_threshold\":2,\"mbedge_limit\":157,\"sub_bedge_limit\":153,\"inner\":1,\"blocks\":\"0101001101011010000010110\",\"coefficients\":24,\"greatest\":10,\"mode_bits\":8,\"token_bits\":280}\n\
{\"packet\":3,\"column\":0,\"row\":0,\"segment\":0,\"skip\":1,\"reference\":\"altref\",\"luma\":\"mv_near\",\"chroma\":null,\"parts\":null,\"split\":null,\"vector\":[0,0],\"quantizer\":5,\"level\":20,\"interior_limit\":6,\"hev_threshold\":2,\"mbedge_limit\":50,\"sub_bedge_limit\":46,\"inner\":0,\"blocks\":\"0000000000000000000000000\",\"coefficients\":0,\"greatest\":0,\"mode_bits\":14,\"token_bits\":0}\n\
{\"packet\":3,\"column\":0,\"row\":1,\"segment\":0,\"skip\":1,\"reference\":\"last\",\"luma\":\"mv_split\",\"chroma\":null,\"parts\":[[0,0],[0,0],[0,0],[0,0],[0,0],[0,0],[0,0],[0,0],[0,0],[0,0],[0,0],[0,0],[0,0],[0,0],[0,0],[0,0]],\"split\":\"mv_top_bottom\",\"vector\":[0,0],\"quantizer\":5,\"level\":20,\"interior_limit\":6,\"hev_threshold\":2,\"mbedge_limit\":50,\"sub_bedge_limit\":46,\"inner\":1,\"blocks\":\"0000000000000000000000000\",\"coefficients\":0,\"greatest\":0,\"mode_bits\":19,\"token_bits\":0}\n\
{\"packet\":4,\"column\":0,\"row\":0,\"segment\":0,\"skip\":1,\"reference\":\"intra\",\"luma\":\"B_PRED\",\"chroma\":\"H_PRED\",\"parts\":[\"B_RD_PRED\",\"B_HU_PRED\",\"B_DC_PRED\",\"B_VE_PRED\",\"B_TM_PRED\",\"B_TM_PRED\",\"B_HU_PRED\",\"B_VR_PRED\",\"B_LD_PRED\",\"B_TM_PRED\",\"B_TM_PRED\",\"B_LD_PRED\",\"B_LD_PRED\",\"B_VR_PRED\",\"B_LD_PRED\",\"B_HE_PRED\"],\"split\":null,\"vector\":null,\"quantizer\":5,\"level\":1,\"interior_limit\":1,\"hev_threshold\":0,\"mbedge_limit\":7,\"sub_bedge_limit\":3,\"inner\":1,\"blocks\":\"0000000000000000000000000\",\"coefficients\":0,\"greatest\":0,\"mode_bits\":90,\"token_bits\":0}\n\
{\"packet\":5,\"column\":0,\"row\":0,\"segment\":0,\"skip\":1,\"reference\":\"golden\",\"luma\":\"mv_split\",\"chroma\":null,\"parts\":[[-94,555],[-94,555],[0,0],[0,0],[-94,555],[-94,555],[0,0],[0,0],[-94,555],[-94,555],[0,0],[0,0],[-94,555],[-94,555],[0,0],[0,0]],\"split\":\"mv_left_right\",\"vector\":[0,0],\"quantizer\":17,\"level\":14,\"interior_limit\":5,\"hev_threshold\":0,\"mbedge_limit\":37,\"sub_bedge_limit\":33,\"inner\":1,\"blocks\":\"0000000000000000000000000\",\"coefficients\":0,\"greatest\":0,\"mode_bits\":37,\"token_bits\":0}\n\
";

/// A key packet whose token partition is the byte 75, with probabilities at which the zeros after it are many tokens: the third of its four
/// macroblocks takes in more bits than the 80 zero bytes and the mark have.
const PAST_PACKET: &str =
    "b00d009d012a400010000000152d1f7fb3cc2bd02a1363958b9e8568d208adc36a05711b4856fa0c8574857a0557017a060fd2f48340adf6240ae32bd02b948350ae141a0ae90af40a939832b0ae58d862bcc2b9c5798ae815e815d215e815d215e815d215e8141125264538a9fffcf6ae30394b86000075";

/// The objects that the parser finds of it; `token_bits` are as far as the zeros and the mark go.
const PAST_OBJECTS: &str = "\
{\"packet\":0,\"column\":0,\"row\":0,\"segment\":0,\"skip\":0,\"reference\":\"intra\",\"luma\":\"B_PRED\",\"chroma\":\"H_PRED\",\"parts\":[\"B_RD_PRED\",\"B_TM_PRED\",\"B_LD_PRED\",\"B_RD_PRED\",\"B_RD_PRED\",\"B_VL_PRED\",\"B_RD_PRED\",\"B_RD_PRED\",\"B_DC_PRED\",\"B_VR_PRED\",\"B_HD_PRED\",\"B_VL_PRED\",\"B_VL_PRED\",\"B_LD_PRED\",\"B_VE_PRED\",\"B_HE_PRED\"],\"split\":null,\"vector\":null,\"quantizer\":10,\"level\":0,\"interior_limit\":null,\"hev_threshold\":null,\"mbedge_limit\":null,\"sub_bedge_limit\":null,\"inner\":0,\"blocks\":\"0001000100000011000000000\",\"coefficients\":11,\"greatest\":2,\"mode_bits\":89,\"token_bits\":54}\n\
{\"packet\":0,\"column\":1,\"row\":0,\"segment\":0,\"skip\":0,\"reference\":\"intra\",\"luma\":\"V_PRED\",\"chroma\":\"V_PRED\",\"parts\":null,\"split\":null,\"vector\":null,\"quantizer\":10,\"level\":0,\"interior_limit\":null,\"hev_threshold\":null,\"mbedge_limit\":null,\"sub_bedge_limit\":null,\"inner\":0,\"blocks\":\"1111111111111111000000001\",\"coefficients\":127,\"greatest\":2,\"mode_bits\":6,\"token_bits\":390}\n\
{\"packet\":0,\"column\":2,\"row\":0,\"segment\":0,\"skip\":0,\"reference\":\"intra\",\"luma\":\"H_PRED\",\"chroma\":\"DC_PRED\",\"parts\":null,\"split\":null,\"vector\":null,\"quantizer\":10,\"level\":0,\"interior_limit\":null,\"hev_threshold\":null,\"mbedge_limit\":null,\"sub_bedge_limit\":null,\"inner\":0,\"blocks\":\"1111111111111111000000001\",\"coefficients\":96,\"greatest\":2,\"mode_bits\":4,\"token_bits\":204}\n\
{\"packet\":0,\"column\":3,\"row\":0,\"segment\":0,\"skip\":0,\"reference\":\"intra\",\"luma\":\"DC_PRED\",\"chroma\":\"H_PRED\",\"parts\":null,\"split\":null,\"vector\":null,\"quantizer\":10,\"level\":0,\"interior_limit\":null,\"hev_threshold\":null,\"mbedge_limit\":null,\"sub_bedge_limit\":null,\"inner\":0,\"blocks\":\"1000000000000000000000001\",\"coefficients\":14,\"greatest\":2,\"mode_bits\":5,\"token_bits\":0}\n\
";

fn packets(alloc: Global, texts: &[&str]) -> Result<Vec<Packet>, Fail> {
    let mut packets = Vec::new(alloc);
    for text in texts {
        let bytes = Bytes::new(hex::decode(alloc, text)?);
        packets.push(Packet { stamp: 0, bytes })?;
    }
    Ok(packets)
}

fn expect_list(
    rt: &impl Abort,
    alloc: Global,
    form: Form,
    texts: &[&str],
    text: &str,
) -> Result<(), Fail> {
    let packets = packets(alloc, texts)?;
    let wanted = Wanted {
        what: What::Macroblocks,
        form,
        first: 0,
        count: packets.len(),
    };
    let mut output = Vec::new(alloc);
    write_list(&mut output, alloc, &Tables::rfc(), wanted, &packets)?;
    assert_eq!(rt; str::from_utf8(output.as_slice())?, text);
    Ok(())
}

#[test]
fn lists_macroblocks(rt: HostRuntime) -> Result<(), Fail> {
    expect_list(&rt, rt.alloc(), Form::Lines, &PACKETS, LINES)?;
    expect_list(&rt, rt.alloc(), Form::Objects, &PACKETS, OBJECTS)
}

#[test]
fn lists_macroblocks_past_all_zeros(rt: HostRuntime) -> Result<(), Fail> {
    expect_list(&rt, rt.alloc(), Form::Objects, &[PAST_PACKET], PAST_OBJECTS)
}
