// What the programs `export` and `import` print, as functions on slices.
#![tactic(auto)]

ghost use Rattle.text.specs.Buffer.{Prints};
ghost use Rattle.converting.specs.Texts.{export_text, import_text};

use flat::Stamp;

// What the exporting program prints for an image: its flat file, in which nothing is filled, or why there is none. It is written to the front of out; the answer is how many bytes it is.
pub fn export(input: &[u8], out: &mut [u8; 65536]) -> usize
    ensures { Prints out.old (export_text input.now) out.new result }
{
    if 65536 < input.len() {
        return text::print(out, b"too long\n");
    }
    let answer = flat::export_exact(input, out);
    match answer {
        Ok(n) => n as usize,
        Err(r) => text::refused(out, 0, r.number as u64),
    }
}

// What the importing program prints for a flat file: an image of it, or why there is none.
pub fn import(input: &[u8], out: &mut [u8; 65536]) -> usize
    ensures { Prints out.old (import_text input.now) out.new result }
{
    if 65536 < input.len() {
        return text::print(out, b"too long\n");
    }
    let application = [0u8; 64];
    let stamp = Stamp {
        application: &application,
        major: 0,
        minor: 0,
        media_type: 0,
        created: 0,
        written: 0,
    };
    let answer = flat::import(out, input, 2048, stamp);
    match answer {
        Ok(p) => p.used as usize,
        Err(r) => text::print_refused(out, r.number as u64),
    }
}
