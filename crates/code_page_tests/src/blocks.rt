//! Blocks of 256 bytes: that a run stays in one, and what is seen where one alone is shown.
use crate::checks::{
    check_block, check_count, check_form, check_known, check_line, check_lines, check_show,
    no_pages, page_with,
};
use code_pages::Kind;

#[test]
fn a_run_stays_in_its_block(rt: HostRuntime) {
    let mut pages = no_pages(rt.alloc()).expect(&rt, "memory");
    let page = page_with(&[(252, 0x0085), (254, 0x0085), (256, 0x0085), (258, 0x8082)]);
    check_show(&rt, &mut pages, 0, &page, true);
    check_line(&rt, &mut pages, 0, 252, 1);
    check_known(&rt, &pages, 0, &[(252, 1), (254, 2), (256, 0)]);
    check_line(&rt, &mut pages, 0, 256, 4);
    check_lines(
        &rt,
        &pages,
        1,
        &[
            (252, 2, Kind::Addi, false, 2),
            (254, 1, Kind::Addi, false, 2),
            (256, 0, Kind::End, false, 2),
            (256, 1, Kind::Addi, false, 2),
            (258, 0, Kind::Jalr, false, 2),
        ],
    );
    drop(pages);
}

#[test]
fn a_word_over_the_end_of_a_block_is_seen_from_both(rt: HostRuntime) {
    let mut pages = no_pages(rt.alloc()).expect(&rt, "memory");
    let page = page_with(&[(252, 0x0085), (254, 0x00500093)]);
    check_show(&rt, &mut pages, 0, &page, true);
    check_line(&rt, &mut pages, 0, 252, 1);
    check_known(&rt, &pages, 0, &[(252, 1), (254, 2), (256, 0), (258, 0)]);
    // addi x1, x0, 6: the halfword at 256 alone is another
    let page = page_with(&[(252, 0x0085), (254, 0x00600093)]);
    check_block(&rt, &mut pages, 0, 0, &page, true);
    check_lines(
        &rt,
        &pages,
        1,
        &[
            (252, 2, Kind::Addi, false, 2),
            (254, 1, Kind::Addi, false, 4),
            (258, 0, Kind::End, false, 2),
        ],
    );
    check_line(&rt, &mut pages, 0, 254, 2);
    check_form(&rt, &pages, 2, (1, 0, 6, 6));
    let page = page_with(&[(252, 0x0085), (254, 0x00700093)]);
    check_block(&rt, &mut pages, 0, 1, &page, true);
    check_lines(
        &rt,
        &pages,
        1,
        &[
            (252, 2, Kind::Addi, false, 2),
            (254, 1, Kind::Addi, false, 4),
            (258, 0, Kind::End, false, 2),
        ],
    );
    check_line(&rt, &mut pages, 0, 254, 2);
    check_form(&rt, &pages, 2, (1, 0, 7, 7));
    check_count(&rt, &pages, 4);
    drop(pages);
}

#[test]
fn a_block_leaves_the_others(rt: HostRuntime) {
    let mut pages = no_pages(rt.alloc()).expect(&rt, "memory");
    let page = page_with(&[
        (0, 0x0085), // c.addi x1, 1
        (2, 0x8082),
        (256, 0x0085),
        (258, 0x8082),
        (512, 0x0085),
        (514, 0x8082),
    ]);
    check_show(&rt, &mut pages, 0, &page, true);
    check_line(&rt, &mut pages, 0, 0, 1);
    check_line(&rt, &mut pages, 0, 256, 3);
    check_line(&rt, &mut pages, 0, 512, 5);
    let page = page_with(&[
        (0, 0x0089), // c.addi x1, 2
        (2, 0x8082),
        (256, 0x0089),
        (258, 0x8082),
        (512, 0x0089),
        (514, 0x0089),
    ]);
    check_block(&rt, &mut pages, 0, 1, &page, true);
    // the halfword at 512 is the one behind the block, and its code is known again
    check_lines(
        &rt,
        &pages,
        1,
        &[
            (0, 1, Kind::Addi, false, 2),
            (2, 0, Kind::Jalr, false, 2),
            (256, 1, Kind::End, false, 0),
            (258, 0, Kind::Jalr, false, 2),
            (512, 1, Kind::Addi, false, 2),
            (514, 0, Kind::Jalr, false, 2),
        ],
    );
    check_line(&rt, &mut pages, 0, 256, 3);
    check_line(&rt, &mut pages, 0, 512, 5);
    check_form(&rt, &pages, 1, (1, 1, 0, 1));
    check_form(&rt, &pages, 3, (1, 1, 0, 2));
    check_form(&rt, &pages, 5, (1, 1, 0, 2));
    // now the halfword at 514, and a word might have begun at 512; no line follows that at 514
    check_block(&rt, &mut pages, 0, 2, &page, true);
    check_lines(
        &rt,
        &pages,
        1,
        &[
            (0, 1, Kind::Addi, false, 2),
            (2, 0, Kind::Jalr, false, 2),
            (256, 1, Kind::Addi, false, 2),
            (258, 0, Kind::Jalr, false, 2),
            (512, 1, Kind::Addi, false, 2),
            (514, 0, Kind::End, false, 0),
        ],
    );
    check_known(&rt, &pages, 0, &[(256, 3), (258, 4), (512, 5), (514, 0)]);
    drop(pages);
}

#[test]
fn a_new_page_is_zeros_but_for_its_block(rt: HostRuntime) {
    let mut pages = no_pages(rt.alloc()).expect(&rt, "memory");
    let page = page_with(&[(0, 0x0085), (256, 0x0085)]);
    check_block(&rt, &mut pages, 9, 1, &page, true);
    check_line(&rt, &mut pages, 9, 0, 1);
    check_line(&rt, &mut pages, 9, 256, 2);
    check_lines(
        &rt,
        &pages,
        1,
        &[
            (0, 0, Kind::End, false, 2),
            (256, 1, Kind::Addi, false, 2),
            (258, 0, Kind::End, false, 2),
        ],
    );
    drop(pages);
}

#[test]
fn the_last_block_has_no_halfword_behind_it(rt: HostRuntime) {
    let mut pages = no_pages(rt.alloc()).expect(&rt, "memory");
    let page = page_with(&[(4092, 0x00500093)]);
    check_block(&rt, &mut pages, 0, 15, &page, true);
    check_line(&rt, &mut pages, 0, 4092, 1);
    let page = page_with(&[(4092, 0x00600093)]);
    check_block(&rt, &mut pages, 0, 14, &page, true);
    check_form(&rt, &pages, 1, (1, 0, 5, 5));
    check_lines(
        &rt,
        &pages,
        1,
        &[
            (4092, 1, Kind::Addi, false, 4),
            (4096, 0, Kind::End, false, 2),
        ],
    );
    check_block(&rt, &mut pages, 0, 15, &page, true);
    check_lines(
        &rt,
        &pages,
        1,
        &[
            (4092, 1, Kind::Addi, false, 4),
            (4096, 0, Kind::End, false, 2),
        ],
    );
    check_line(&rt, &mut pages, 0, 4092, 1);
    check_form(&rt, &pages, 1, (1, 0, 6, 6));
    check_count(&rt, &pages, 3);
    drop(pages);
}
