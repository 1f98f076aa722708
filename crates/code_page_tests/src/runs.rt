//! Runs of lines, learnt of pages whose codes are known by hand.
use crate::checks::{
    check_count, check_form, check_known, check_line, check_lines, check_show, no_pages, page_with,
};
use code_pages::{CodePages, Kind};

const END: (u16, u16, Kind, bool, u8) = (0, 0, Kind::End, false, 2);

#[test]
fn a_run_goes_up_to_a_jump(rt: HostRuntime) {
    let mut pages = no_pages(rt.alloc()).expect(&rt, "memory");
    let page = page_with(&[
        (0, 0x00500093), // addi x1, x0, 5
        (4, 0x0085), // c.addi x1, 1
        (6, 0x00208463), // beq x1, x2, 8
        (10, 0x00209463), // bne x1, x2, 8
        (14, 0x0080006F), // jal x0, 8
        (18, 0x00500093),
    ]);
    check_show(&rt, &mut pages, 3, &page, true);
    check_lines(&rt, &pages, 0, &[END]);
    check_known(&rt, &pages, 3, &[(0, 0)]);
    check_line(&rt, &mut pages, 3, 0, 1);
    check_lines(
        &rt,
        &pages,
        0,
        &[
            END,
            (0, 4, Kind::Addi, false, 4),
            (4, 3, Kind::Addi, false, 2),
            (6, 2, Kind::Equal, false, 4),
            (10, 1, Kind::Equal, true, 4),
            (14, 0, Kind::Jal, false, 4),
        ],
    );
    let known = [
        (0, 1),
        (2, 0),
        (4, 2),
        (6, 3),
        (8, 0),
        (10, 4),
        (14, 5),
        (16, 0),
        (18, 0),
    ];
    check_known(&rt, &pages, 3, &known);
    check_known(&rt, &pages, 2, &[(0, 0), (4, 0)]);
    // a known line is the same again
    check_line(&rt, &mut pages, 3, 6, 3);
    check_count(&rt, &pages, 6);
    // rd, rs1, rs2 and the immediate
    check_form(&rt, &pages, 1, (1, 0, 5, 5));
    check_form(&rt, &pages, 2, (1, 1, 0, 1));
    drop(pages);
}

#[test]
fn each_kind_has_its_line(rt: HostRuntime) {
    let mut pages = no_pages(rt.alloc()).expect(&rt, "memory");
    let page = page_with(&[
        (0, 0x00412183), // lw x3, 4(x2)
        (4, 0x00312223), // sw x3, 4(x2)
        (8, 0x00414183), // lbu x3, 4(x2)
        (12, 0x0020E463), // bltu x1, x2, 8
        (16, 0x0020F463), // bgeu x1, x2, 8
        (20, 0x0020C463), // blt x1, x2, 8
        (24, 0x0020D463), // bge x1, x2, 8
        (28, 0x002081B3), // add x3, x1, x2
        (32, 0x00209193), // slli x3, x1, 2
        (36, 0x0020D193), // srli x3, x1, 2
        (40, 0x0020C1B3), // xor x3, x1, x2
        (44, 0x0020F1B3), // and x3, x1, x2
        (48, 0x40208233), // sub x4, x1, x2
        (52, 0x00410203), // lb x4, 4(x2)
        (56, 0x8082), // c.jr x1
    ]);
    check_show(&rt, &mut pages, 0, &page, true);
    check_line(&rt, &mut pages, 0, 0, 1);
    check_lines(
        &rt,
        &pages,
        1,
        &[
            (0, 14, Kind::Lw, false, 4),
            (4, 13, Kind::Sw, false, 4),
            (8, 12, Kind::Lbu, false, 4),
            (12, 11, Kind::Below, false, 4),
            (16, 10, Kind::Below, true, 4),
            (20, 9, Kind::Less, false, 4),
            (24, 8, Kind::Less, true, 4),
            (28, 7, Kind::Add, false, 4),
            (32, 6, Kind::Slli, false, 4),
            (36, 5, Kind::Srli, false, 4),
            (40, 4, Kind::Xor, false, 4),
            (44, 3, Kind::And, false, 4),
            (48, 2, Kind::Other, false, 4),
            (52, 1, Kind::Other, false, 4),
            (56, 0, Kind::Jalr, false, 2),
        ],
    );
    drop(pages);
}

#[test]
fn a_run_goes_up_to_what_is_known(rt: HostRuntime) {
    let mut pages = no_pages(rt.alloc()).expect(&rt, "memory");
    let page = page_with(&[
        (0, 0x00500093),
        (4, 0x00500093),
        (8, 0x0085),
        (10, 0x0080006F),
    ]);
    check_show(&rt, &mut pages, 0, &page, true);
    check_line(&rt, &mut pages, 0, 8, 1);
    check_line(&rt, &mut pages, 0, 0, 3);
    check_lines(
        &rt,
        &pages,
        1,
        &[
            (8, 1, Kind::Addi, false, 2),
            (10, 0, Kind::Jal, false, 4),
            (0, 2, Kind::Addi, false, 4),
            (4, 1, Kind::Addi, false, 4),
            (8, 0, Kind::End, false, 2),
        ],
    );
    check_known(&rt, &pages, 0, &[(0, 3), (4, 4), (8, 1), (10, 2)]);
    drop(pages);
}

#[test]
fn the_middle_of_a_word_is_another_code(rt: HostRuntime) {
    let mut pages = no_pages(rt.alloc()).expect(&rt, "memory");
    // lui x1, 0x85: its upper halfword, 0x0008, has no meaning
    let page = page_with(&[(0, 0x000850B7), (4, 0x0080006F)]);
    check_show(&rt, &mut pages, 0, &page, true);
    check_line(&rt, &mut pages, 0, 0, 1);
    check_line(&rt, &mut pages, 0, 2, 3);
    check_lines(
        &rt,
        &pages,
        1,
        &[
            (0, 1, Kind::Other, false, 4),
            (4, 0, Kind::Jal, false, 4),
            (2, 0, Kind::End, false, 2),
        ],
    );
    check_known(&rt, &pages, 0, &[(0, 1), (2, 3), (4, 2)]);
    drop(pages);
}

#[test]
fn a_call_ends_a_run_and_is_known(rt: HostRuntime) {
    let mut pages = no_pages(rt.alloc()).expect(&rt, "memory");
    let page = page_with(&[(0, 0x0085), (2, 0x00000073)]);
    check_show(&rt, &mut pages, 0, &page, true);
    check_line(&rt, &mut pages, 0, 0, 1);
    check_lines(
        &rt,
        &pages,
        1,
        &[(0, 1, Kind::Addi, false, 2), (2, 0, Kind::End, false, 4)],
    );
    check_known(&rt, &pages, 0, &[(0, 1), (2, 2), (6, 0)]);
    drop(pages);
}

#[test]
fn a_page_ends_a_run(rt: HostRuntime) {
    let mut pages = no_pages(rt.alloc()).expect(&rt, "memory");
    // a word of which the page has two bytes
    let page = page_with(&[(4092, 0x0085), (4094, 0x00500093)]);
    check_show(&rt, &mut pages, 0, &page, true);
    check_line(&rt, &mut pages, 0, 4094, 0);
    check_count(&rt, &pages, 1);
    check_line(&rt, &mut pages, 0, 4092, 1);
    check_lines(
        &rt,
        &pages,
        1,
        &[
            (4092, 1, Kind::Addi, false, 2),
            (4094, 0, Kind::End, false, 2),
        ],
    );
    check_known(&rt, &pages, 0, &[(4092, 1), (4094, 0)]);
    // a halfword, which is all there
    let page = page_with(&[(4094, 0x0085)]);
    check_show(&rt, &mut pages, 1, &page, true);
    check_line(&rt, &mut pages, 1, 4094, 3);
    check_lines(
        &rt,
        &pages,
        3,
        &[
            (4094, 1, Kind::Addi, false, 2),
            (4096, 0, Kind::End, false, 2),
        ],
    );
    // a word of the last four bytes
    let page = page_with(&[(4092, 0x00500093)]);
    check_show(&rt, &mut pages, 2, &page, true);
    check_line(&rt, &mut pages, 2, 4092, 5);
    check_lines(
        &rt,
        &pages,
        5,
        &[
            (4092, 1, Kind::Addi, false, 4),
            (4096, 0, Kind::End, false, 2),
        ],
    );
    drop(pages);
}

#[test]
fn pages_at_two_places_have_lines_of_their_own(rt: HostRuntime) {
    let mut pages = no_pages(rt.alloc()).expect(&rt, "memory");
    let first = page_with(&[(0, 0x0085), (2, 0x8082)]);
    let other = page_with(&[(0, 0x00500093), (4, 0x0080006F)]);
    check_show(&rt, &mut pages, 0, &first, true);
    check_show(&rt, &mut pages, 255, &other, true);
    check_line(&rt, &mut pages, 0, 0, 1);
    check_line(&rt, &mut pages, 255, 0, 3);
    check_lines(
        &rt,
        &pages,
        1,
        &[
            (0, 1, Kind::Addi, false, 2),
            (2, 0, Kind::Jalr, false, 2),
            (0, 1, Kind::Addi, false, 4),
            (4, 0, Kind::Jal, false, 4),
        ],
    );
    check_known(&rt, &pages, 0, &[(0, 1), (2, 2), (4, 0)]);
    check_known(&rt, &pages, 255, &[(0, 3), (2, 0), (4, 4)]);
    drop(pages);
}

#[test]
fn without_places_nothing_is_known(rt: HostRuntime) {
    let mut pages = CodePages::empty(rt.alloc());
    let page = page_with(&[(0, 0x0085)]);
    check_show(&rt, &mut pages, 0, &page, false);
    check_line(&rt, &mut pages, 0, 0, 0);
    check_known(&rt, &pages, 0, &[(0, 0)]);
    check_count(&rt, &pages, 0);
    drop(pages);
}

#[test]
fn what_writes_x0_is_among_the_others(rt: HostRuntime) {
    let mut pages = no_pages(rt.alloc()).expect(&rt, "memory");
    let page = page_with(&[
        (0, 0x00412003), // lw x0, 4(x2)
        (4, 0x00414003), // lbu x0, 4(x2)
        (8, 0x00000013), // addi x0, x0, 0, which is nop
        (12, 0x0001), // c.nop
        (14, 0x00208033), // add x0, x1, x2
        (18, 0x00209013), // slli x0, x1, 2
        (22, 0x0020D013), // srli x0, x1, 2
        (26, 0x0020C033), // xor x0, x1, x2
        (30, 0x0020F033), // and x0, x1, x2
        (34, 0x00008067), // jalr x0, 0(x1), which is ret
    ]);
    check_show(&rt, &mut pages, 0, &page, true);
    check_line(&rt, &mut pages, 0, 0, 1);
    check_lines(
        &rt,
        &pages,
        1,
        &[
            (0, 9, Kind::Other, false, 4),
            (4, 8, Kind::Other, false, 4),
            (8, 7, Kind::Other, false, 4),
            (12, 6, Kind::Other, false, 2),
            (14, 5, Kind::Other, false, 4),
            (18, 4, Kind::Other, false, 4),
            (22, 3, Kind::Other, false, 4),
            (26, 2, Kind::Other, false, 4),
            (30, 1, Kind::Other, false, 4),
            (34, 0, Kind::Jalr, false, 4),
        ],
    );
    drop(pages);
}
