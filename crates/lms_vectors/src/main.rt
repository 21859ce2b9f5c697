// Runs RFC 8554's test cases and other published records of LMS_SHA256_M32_H10 with LMOTS_SHA256_N32_W4, and prints what is computed here.
// The file `stdout` has the published public keys and signatures, and what is to be refused.
#![tactic(auto)]

mod altered;
mod made;
mod record;
mod report;

use std::io;

fn main(rt: HostRuntime) -> io::Result<()> {
    made::run(&rt, "rfc8554_case2_top", 3)?;
    made::run(&rt, "hashsigs_hss2_level0", 4)?;
    let of_the_set = [
        "rfc8554_case2_top",
        "hashsigs_hss2_level0",
        "acvp_h10_w4_no_modification",
        "acvp_h10_w4_modify_message",
        "acvp_h10_w4_modify_signature",
        "acvp_h10_w4_modify_signature_header",
    ];
    for name in of_the_set {
        record::check(&rt, name)?;
    }
    for name in [
        "rfc8554_case1_top",
        "rfc8554_case1_second",
        "rfc8554_case2_second",
    ] {
        print!(rt; "another set: ")?;
        record::check(&rt, name)?;
    }
    altered::run(&rt, "rfc8554_case2_top")
}
