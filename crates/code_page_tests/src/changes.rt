//! Pages whose bytes have changed.
use crate::checks::{
    check_count, check_form, check_known, check_line, check_lines, check_show, no_pages, page_with,
};
use code_pages::Kind;

#[test]
fn a_changed_word_is_known_again_in_its_place(rt: HostRuntime) {
    let mut pages = no_pages(rt.alloc()).expect(&rt, "memory");
    let page = page_with(&[
        (0, 0x00500093), // addi x1, x0, 5
        (4, 0x00108093), // addi x1, x1, 1
        (8, 0x0085), // c.addi x1, 1
        (10, 0x0080006F),
    ]);
    check_show(&rt, &mut pages, 0, &page, true);
    check_line(&rt, &mut pages, 0, 0, 1);
    check_form(&rt, &pages, 2, (1, 1, 1, 1));
    // the same bytes again change nothing
    check_show(&rt, &mut pages, 0, &page, true);
    check_lines(
        &rt,
        &pages,
        1,
        &[
            (0, 3, Kind::Addi, false, 4),
            (4, 2, Kind::Addi, false, 4),
            (8, 1, Kind::Addi, false, 2),
            (10, 0, Kind::Jal, false, 4),
        ],
    );
    // addi x1, x0, 6 and addi x1, x1, 2: of each the upper halfword alone is another
    let page = page_with(&[
        (0, 0x00600093),
        (4, 0x00208093),
        (8, 0x0085),
        (10, 0x0080006F),
    ]);
    check_show(&rt, &mut pages, 0, &page, true);
    // a stale line is still the one at which the code begins; that of the last is known again
    check_known(&rt, &pages, 0, &[(0, 1), (4, 2), (6, 0), (8, 3), (10, 4)]);
    check_lines(
        &rt,
        &pages,
        1,
        &[
            (0, 3, Kind::End, false, 0),
            (4, 2, Kind::Addi, false, 4),
            (8, 1, Kind::Addi, false, 2),
            (10, 0, Kind::Jal, false, 4),
        ],
    );
    check_form(&rt, &pages, 2, (1, 1, 2, 2));
    check_line(&rt, &mut pages, 0, 0, 1);
    check_lines(
        &rt,
        &pages,
        1,
        &[
            (0, 3, Kind::Addi, false, 4),
            (4, 2, Kind::Addi, false, 4),
            (8, 1, Kind::Addi, false, 2),
            (10, 0, Kind::Jal, false, 4),
        ],
    );
    check_form(&rt, &pages, 1, (1, 0, 6, 6));
    check_known(&rt, &pages, 0, &[(0, 1), (4, 2), (6, 0), (8, 3), (10, 4)]);
    drop(pages);
}

#[test]
fn the_first_and_the_last_halfword_change(rt: HostRuntime) {
    let mut pages = no_pages(rt.alloc()).expect(&rt, "memory");
    let page = page_with(&[(0, 0x0085), (2, 0x8082), (4092, 0x0085), (4094, 0x8082)]);
    check_show(&rt, &mut pages, 7, &page, true);
    check_line(&rt, &mut pages, 7, 0, 1);
    check_line(&rt, &mut pages, 7, 4092, 3);
    let page = page_with(&[(0, 0x0089), (2, 0x8082), (4092, 0x0085), (4094, 0x0085)]);
    check_show(&rt, &mut pages, 7, &page, true);
    // each is known again but the last: no line followed the jump, and the addition goes on
    check_known(&rt, &pages, 7, &[(0, 1), (2, 2), (4092, 3), (4094, 0)]);
    check_lines(
        &rt,
        &pages,
        1,
        &[
            (0, 1, Kind::Addi, false, 2),
            (2, 0, Kind::Jalr, false, 2),
            (4092, 1, Kind::Addi, false, 2),
            (4094, 0, Kind::End, false, 0),
        ],
    );
    check_form(&rt, &pages, 1, (1, 1, 0, 2));
    check_line(&rt, &mut pages, 7, 0, 1);
    check_line(&rt, &mut pages, 7, 4092, 3);
    check_line(&rt, &mut pages, 7, 4094, 5);
    check_known(&rt, &pages, 7, &[(0, 1), (2, 2), (4092, 3), (4094, 5)]);
    check_lines(
        &rt,
        &pages,
        1,
        &[
            (0, 1, Kind::Addi, false, 2),
            (2, 0, Kind::Jalr, false, 2),
            (4092, 1, Kind::Addi, false, 2),
            (4094, 0, Kind::End, false, 0),
            (4094, 1, Kind::Addi, false, 2),
            (4096, 0, Kind::End, false, 2),
        ],
    );
    drop(pages);
}

#[test]
fn a_change_leaves_other_pages(rt: HostRuntime) {
    let mut pages = no_pages(rt.alloc()).expect(&rt, "memory");
    let page = page_with(&[(64, 0x0085), (66, 0x8082)]);
    check_show(&rt, &mut pages, 0, &page, true);
    check_show(&rt, &mut pages, 1, &page, true);
    check_line(&rt, &mut pages, 0, 64, 1);
    check_line(&rt, &mut pages, 1, 64, 3);
    check_show(&rt, &mut pages, 1, &page_with(&[]), true);
    check_known(&rt, &pages, 0, &[(64, 1), (66, 2)]);
    check_known(&rt, &pages, 1, &[(64, 3), (66, 4)]);
    check_lines(
        &rt,
        &pages,
        1,
        &[
            (64, 1, Kind::Addi, false, 2),
            (66, 0, Kind::Jalr, false, 2),
            // zeros have no meaning: an end, in its place
            (64, 1, Kind::End, false, 2),
            (66, 0, Kind::End, false, 2),
        ],
    );
    check_line(&rt, &mut pages, 1, 64, 3);
    check_line(&rt, &mut pages, 0, 64, 1);
    drop(pages);
}

#[test]
fn a_word_that_becomes_two_halfwords_is_learnt_anew(rt: HostRuntime) {
    let mut pages = no_pages(rt.alloc()).expect(&rt, "memory");
    let page = page_with(&[(0, 0x00500093), (4, 0x0085), (6, 0x8082)]);
    check_show(&rt, &mut pages, 0, &page, true);
    check_line(&rt, &mut pages, 0, 0, 1);
    let page = page_with(&[(0, 0x0085), (2, 0x0085), (4, 0x0085), (6, 0x8082)]);
    check_show(&rt, &mut pages, 0, &page, true);
    // the line behind it is at 4, and not at 2
    check_known(&rt, &pages, 0, &[(0, 0), (2, 0), (4, 2), (6, 3)]);
    check_line(&rt, &mut pages, 0, 0, 4);
    check_known(&rt, &pages, 0, &[(0, 4), (2, 5), (4, 2), (6, 3)]);
    check_lines(
        &rt,
        &pages,
        1,
        &[
            (0, 2, Kind::End, false, 0),
            (4, 1, Kind::Addi, false, 2),
            (6, 0, Kind::Jalr, false, 2),
            (0, 2, Kind::Addi, false, 2),
            (2, 1, Kind::Addi, false, 2),
            (4, 0, Kind::End, false, 2),
        ],
    );
    drop(pages);
}

#[test]
fn two_halfwords_that_become_a_word_are_learnt_anew(rt: HostRuntime) {
    let mut pages = no_pages(rt.alloc()).expect(&rt, "memory");
    let page = page_with(&[(0, 0x0085), (2, 0x0085), (4, 0x8082)]);
    check_show(&rt, &mut pages, 0, &page, true);
    check_line(&rt, &mut pages, 0, 0, 1);
    let page = page_with(&[(0, 0x00500093), (4, 0x8082)]);
    check_show(&rt, &mut pages, 0, &page, true);
    check_known(&rt, &pages, 0, &[(0, 0), (2, 2), (4, 3)]);
    check_line(&rt, &mut pages, 0, 0, 4);
    check_known(&rt, &pages, 0, &[(0, 4), (2, 2), (4, 3)]);
    check_lines(
        &rt,
        &pages,
        1,
        &[
            (0, 2, Kind::End, false, 0),
            // what 0x0050 stands for alone: c.addi4spn x12, 4
            (2, 1, Kind::Addi, false, 2),
            (4, 0, Kind::Jalr, false, 2),
            (0, 1, Kind::Addi, false, 4),
            (4, 0, Kind::End, false, 2),
        ],
    );
    drop(pages);
}

#[test]
fn a_code_becomes_a_jump_and_an_addition_again(rt: HostRuntime) {
    let mut pages = no_pages(rt.alloc()).expect(&rt, "memory");
    let addition = page_with(&[(0, 0x00500093), (4, 0x00108093), (8, 0x0080006F)]);
    let jump = page_with(&[(0, 0x00500093), (4, 0x0080006F), (8, 0x0080006F)]);
    check_show(&rt, &mut pages, 0, &addition, true);
    check_line(&rt, &mut pages, 0, 0, 1);
    check_show(&rt, &mut pages, 0, &jump, true);
    check_line(&rt, &mut pages, 0, 4, 2);
    // nothing follows the jump, but how many lines stood behind it is kept
    check_lines(
        &rt,
        &pages,
        1,
        &[
            (0, 2, Kind::Addi, false, 4),
            (4, 1, Kind::Jal, false, 4),
            (8, 0, Kind::Jal, false, 4),
        ],
    );
    check_show(&rt, &mut pages, 0, &addition, true);
    check_line(&rt, &mut pages, 0, 4, 2);
    check_lines(
        &rt,
        &pages,
        1,
        &[
            (0, 2, Kind::Addi, false, 4),
            (4, 1, Kind::Addi, false, 4),
            (8, 0, Kind::Jal, false, 4),
        ],
    );
    check_form(&rt, &pages, 2, (1, 1, 1, 1));
    drop(pages);
}

#[test]
fn a_run_ends_where_a_stale_line_begins(rt: HostRuntime) {
    let mut pages = no_pages(rt.alloc()).expect(&rt, "memory");
    let page = page_with(&[(0, 0x00500093), (4, 0x8082)]);
    check_show(&rt, &mut pages, 0, &page, true);
    check_line(&rt, &mut pages, 0, 4, 1);
    // the change at 100 is the last one
    let page = page_with(&[(0, 0x00500093), (4, 0x0085), (6, 0x8082), (100, 0x0085)]);
    check_show(&rt, &mut pages, 0, &page, true);
    check_line(&rt, &mut pages, 0, 0, 2);
    check_known(&rt, &pages, 0, &[(0, 2), (4, 1), (6, 0)]);
    check_line(&rt, &mut pages, 0, 4, 4);
    check_known(&rt, &pages, 0, &[(0, 2), (4, 4), (6, 5)]);
    check_lines(
        &rt,
        &pages,
        1,
        &[
            (4, 0, Kind::End, false, 0),
            (0, 1, Kind::Addi, false, 4),
            (4, 0, Kind::End, false, 2),
            (4, 1, Kind::Addi, false, 2),
            (6, 0, Kind::Jalr, false, 2),
        ],
    );
    drop(pages);
}

#[test]
fn a_code_that_no_longer_lies_in_the_page_is_forgotten(rt: HostRuntime) {
    let mut pages = no_pages(rt.alloc()).expect(&rt, "memory");
    check_show(&rt, &mut pages, 0, &page_with(&[(4094, 0x0085)]), true);
    check_line(&rt, &mut pages, 0, 4094, 1);
    // a word of which the page has two bytes
    check_show(&rt, &mut pages, 0, &page_with(&[(4094, 0x00500093)]), true);
    check_known(&rt, &pages, 0, &[(4094, 0)]);
    check_line(&rt, &mut pages, 0, 4094, 0);
    check_known(&rt, &pages, 0, &[(4094, 0)]);
    check_count(&rt, &pages, 3);
    drop(pages);
}
