// The listing: at most 65,535 bytes from standard input, a table of 1,024 rows. With the word `--lenient` length prefixes may be padded; after the word
// `--book` stands the file of a class book of at most 1,048,575 bytes.
#![tactic(auto)]

use format::Setting;

// The listing with a book and under a setting.
fn list(book: &[u8], setting: Setting) {
    let mut space = io::large_buffer();
    let Some(s) = files::input(&mut space) else {
        lines::refused(1, 0);
        return;
    };
    let mut table = [0u32; 8192];
    let a = reader::read(s, book, &mut table, setting);
    lines::answer(&table, a);
}

fn main(rt: HostRuntime) {
    files::for_one_list(&rt, b"listing [--lenient] [--book FILE]", list);
}
