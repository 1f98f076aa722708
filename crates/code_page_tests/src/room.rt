//! How many pages and lines there may be, and the numbers beside them.
use crate::checks::{
    check_count, check_known, check_line, check_show, no_pages, page_with, put, same_at,
};
use code_pages::CodePages;
use std::process::Abort;

// c.addi x1, 1 at each halfword
fn full_page() -> [u8; 4096] {
    let mut page = page_with(&[]);
    for half in 0..2048usize {
        put(&mut page, 2 * half, 0x0085);
    }
    page
}

// learns the runs of a full page's first blocks, each 128 lines and an end, from a line on
fn learn_blocks(rt: &impl Abort, pages: &mut CodePages, place: usize, blocks: u32, first: u16) {
    for block in 0..16u32 {
        if block < blocks {
            let wanted = first as usize + 129 * block as usize;
            check_line(rt, pages, place, 256 * block, wanted);
        }
    }
}

#[test]
fn lines_that_are_used_up_are_all_forgotten(rt: HostRuntime) {
    let mut pages = no_pages(rt.alloc()).expect(&rt, "memory");
    let page = full_page();
    for place in 0..8usize {
        check_show(&rt, &mut pages, place, &page, true);
    }
    // 2064 lines of a page
    for place in 0..7u16 {
        learn_blocks(&rt, &mut pages, place as usize, 16, 2064 * place + 1);
    }
    learn_blocks(&rt, &mut pages, 7, 14, 14449);
    // the first line, and 126 runs
    check_count(&rt, &pages, 16255);
    check_known(&rt, &pages, 7, &[(3328, 16126), (3582, 16253), (3584, 0)]);
    // 130 more would be 16385
    check_line(&rt, &mut pages, 7, 3584, 1);
    check_count(&rt, &pages, 130);
    for place in 0..7usize {
        check_known(&rt, &pages, place, &[(0, 0), (4094, 0)]);
    }
    check_known(&rt, &pages, 7, &[(0, 0), (3328, 0), (3584, 1)]);
    check_line(&rt, &mut pages, 0, 254, 130);
    check_known(&rt, &pages, 7, &[(3584, 1)]);
    drop(pages);
}

#[test]
fn where_130_lines_are_left_a_run_is_learnt(rt: HostRuntime) {
    let mut pages = no_pages(rt.alloc()).expect(&rt, "memory");
    let page = full_page();
    for place in 0..8usize {
        check_show(&rt, &mut pages, place, &page, true);
    }
    for place in 0..7u16 {
        learn_blocks(&rt, &mut pages, place as usize, 16, 2064 * place + 1);
    }
    learn_blocks(&rt, &mut pages, 7, 13, 14449);
    check_count(&rt, &pages, 16126);
    // a run of 127 lines and an end: it begins at the second halfword of its block
    check_line(&rt, &mut pages, 7, 3330, 16126);
    check_count(&rt, &pages, 16254);
    // 130 more are 16384
    check_line(&rt, &mut pages, 7, 3584, 16254);
    check_count(&rt, &pages, 16383);
    check_known(&rt, &pages, 0, &[(0, 1), (254, 128), (256, 130)]);
    check_line(&rt, &mut pages, 7, 3840, 1);
    check_count(&rt, &pages, 130);
    drop(pages);
}

#[test]
fn there_are_256_places(rt: HostRuntime) {
    let mut pages = no_pages(rt.alloc()).expect(&rt, "memory");
    let page = full_page();
    check_show(&rt, &mut pages, 255, &page, true);
    check_show(&rt, &mut pages, 256, &page, false);
    check_line(&rt, &mut pages, 255, 4094, 1);
    check_line(&rt, &mut pages, 256, 4094, 0);
    // no page was shown here
    check_line(&rt, &mut pages, 254, 4094, 0);
    check_count(&rt, &pages, 3);
    drop(pages);
}

#[test]
fn hints_are_kept(rt: HostRuntime) {
    let mut pages = no_pages(rt.alloc()).expect(&rt, "memory");
    same_at(&rt, pages.hints()[63], 0, 63);
    let mut hints = [7; 64];
    hints[63] = 8;
    pages.keep_hints(hints);
    same_at(&rt, pages.hints()[0], 7, 0);
    same_at(&rt, pages.hints()[63], 8, 63);
    drop(pages);
}
