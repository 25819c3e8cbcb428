// The cases of document 01 that are not starred, the limits of document 02, accepted sheets of codes 2 and 3, and the published examples,
// worked and compared: a line for each, and last their count.
#![tactic(auto)]

mod books;
mod comparing;
mod direct;
mod document;
mod limits;
mod triangles;

const CASES: u64 = 26;

fn main(rt: HostRuntime) {
    let document = document::case_8(&rt) + document::case_9(&rt) + document::case_10(&rt);
    let limits = limits::kind_1(&rt) + limits::kind_3(&rt) + limits::direct(&rt);
    let accepted = triangles::point_in_triangle(&rt)
        + triangles::point_in_quadrilateral(&rt)
        + triangles::central_triangle(&rt);
    let published = books::book_000_example_1(&rt)
        + books::book_000_example_2(&rt)
        + books::book_001_example_8_1(&rt)
        + books::book_004_example_1(&rt);
    let expected = document + limits + accepted + published;
    let _ = println!(rt; "{expected} of {CASES} cases as expected");
}
