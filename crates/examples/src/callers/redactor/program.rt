//! The redactor as a whole program, whose `main` is in CALLING.md. No test runs it, since it reads stdin.
use super::{searcher_for, slices_of, stars_for, write_redacted};
use ac_search::{FromRead, IntoWrite, Sink, Source};
use std::alloc::Global;
use std::env;
use std::io::{BufWriter, Write};

/// Copies a stream with stars for secrets.
fn redact<R: Source, W: Sink>(
    alloc: Global,
    secrets: &[&[u8]],
    reader: &mut R,
    writer: &mut W,
) -> Result<(), anyhow::Error> {
    let searcher = searcher_for(alloc, secrets)?;
    let stars = stars_for(alloc, secrets)?;
    let texts = slices_of(alloc, &stars)?;
    write_redacted(alloc, &searcher, &texts, reader, writer)?;
    Ok(())
}

/// Redacts stdin, and takes the secrets from the command line.
fn redact_stdin(rt: HostRuntime) -> Result<(), anyhow::Error> {
    let alloc = rt.alloc();
    let words: Vec<String> = env::args(&rt)?.skip(1).collect(alloc)?;
    let mut secrets: Vec<&[u8]> = Vec::new(alloc);
    for word in &words {
        secrets.push(word.as_str().as_bytes())?;
    }
    let mut out = BufWriter::new(alloc, rt.stdout())?;
    let mut reader = FromRead::new(rt.stdin().lock());
    let mut writer = IntoWrite::new(&mut out);
    let ended = redact(alloc, &secrets, &mut reader, &mut writer);
    drop(writer);
    out.flush()?;
    Ok(ended?)
}
