// Damaged files: each refusal at its place, and the reader against a second reading.
use crate::plain;
use command_list::fault::Fault;
use list_file::{check as records, rewrite, write};
use std::process::Abort;
use std::test::Fail;

// What the reader says of a file: a refusal by its number, as hosts see it.
fn said(file: &[u8]) -> Result<usize, (u8, usize)> {
    records(file).map_err(|fault| (u8::from(fault.number), fault.place))
}

fn refused(rt: &impl Abort, file: &[u8], number: u8, place: usize) {
    assert_eq!(rt; said(file), Err((number, place)));
    assert_eq!(rt; plain::read(file), Err((number, place)));
}

#[test]
fn each_number_at_its_place(rt: HostRuntime) {
    refused(&rt, &[], 21, 0);
    refused(&rt, &[2], 21, 0);
    refused(&rt, &[0, 1], 21, 0);
    refused(&rt, &[1, 0], 22, 1);
    refused(&rt, &[1, 0, 1], 22, 1);
    refused(&rt, &[1, 0, 0, 2], 22, 1);
    refused(&rt, &[1, 0, 2, 3], 22, 1);
    refused(&rt, &[1, 0, 1, 0], 23, 1);
    refused(&rt, &[1, 0, 1, 9], 23, 1);
    refused(&rt, &[1, 0, 1, 2, 0, 1, 32], 23, 4);
    refused(&rt, &[1, 0, 2, 2, 0], 24, 1);
}

#[test]
fn each_wrong_length(rt: HostRuntime) {
    refused(&rt, &[1, 0, 1, 1], 24, 1);
    refused(&rt, &[1, 0, 2, 1, 0], 24, 1);
    refused(&rt, &[1, 0, 1, 16], 24, 1);
    refused(&rt, &[1, 0, 2, 16, 1], 24, 1);
    refused(&rt, &[1, 0, 1, 22], 24, 1);
    refused(&rt, &[1, 0, 2, 22, 0], 24, 1);
    refused(&rt, &[1, 0, 1, 2, 0, 1, 3], 24, 4);
    assert_eq!(rt; said(&[1, 0, 2, 16, 0]), Ok(1));
}

#[test]
fn each_operand_out_of_range(rt: HostRuntime) {
    refused(&rt, &[1, 0, 2, 3, 2], 25, 1);
    refused(&rt, &[1, 0, 3, 1, 0, 65], 25, 1);
    refused(&rt, &[1, 0, 7, 10, 64, 0, 0, 0, 0, 0], 25, 1);
    refused(&rt, &[1, 0, 7, 11, 0, 64, 0, 0, 0, 0], 25, 1);
    refused(&rt, &[1, 0, 10, 12, 64, 0, 0, 0, 0, 0, 0, 0, 0], 25, 1);
    refused(&rt, &[1, 0, 10, 15, 255, 0, 0, 0, 0, 0, 0, 0, 0], 25, 1);
    let mut vertex = [0u8; 21];
    vertex[0] = 1;
    vertex[2] = 18;
    vertex[3] = 8;
    vertex[4] = 16;
    refused(&rt, &vertex, 25, 1);
    vertex[4] = 15;
    assert_eq!(rt; said(&vertex), Ok(1));
}

#[test]
fn kinds_types_and_special_slots(rt: HostRuntime) {
    let mut indirect = [0u8; 22];
    indirect[0] = 1;
    indirect[2] = 19;
    indirect[3] = 31;
    assert_eq!(rt; said(&indirect), Ok(1));
    indirect[4] = 1;
    refused(&rt, &indirect, 25, 1);
    indirect[4] = 2;
    indirect[5] = 255;
    assert_eq!(rt; said(&indirect), Ok(1));
    indirect[5] = 64;
    refused(&rt, &indirect, 25, 1);
    let mut barrier = [0u8; 21];
    barrier[0] = 1;
    barrier[2] = 18;
    barrier[3] = 22;
    assert_eq!(rt; said(&barrier), Ok(1));
    barrier[4] = 1;
    refused(&rt, &barrier, 25, 1);
}

#[test]
fn nine_targets(rt: HostRuntime) {
    let mut nine = [0u8; 77];
    nine[0] = 1;
    nine[2] = 74;
    nine[3] = 16;
    nine[4] = 9;
    refused(&rt, &nine, 25, 1);
    nine[2] = 66;
    nine[4] = 8;
    assert_eq!(rt; said(&nine[0..69]), Ok(1));
}

// The season plot as a list.
fn plot(rt: &impl Abort) -> Result<[u8; 361], Fault> {
    let label = season_plot::label()?;
    let upload = season_plot::upload();
    let commands = season_plot::commands::commands(upload.as_slice(), label.units());
    let mut bytes = [0u8; 361];
    assert_eq!(rt; write(&commands, &mut bytes), Ok(361));
    Ok(bytes)
}

#[test]
fn cut_at_every_length(rt: HostRuntime) -> Result<(), Fail> {
    let bytes = plot(&rt)?;
    let mut whole = 0;
    for n in 0..=bytes.len() {
        let part = &bytes[0..n];
        assert_eq!(rt; said(part), plain::read(part));
        if said(part).is_ok() {
            whole = n;
        }
    }
    assert_eq!(rt; whole, 361);
    Ok(())
}

#[test]
fn one_byte_changed_at_every_offset(rt: HostRuntime) -> Result<(), Fail> {
    let bytes = plot(&rt)?;
    for at in 0..bytes.len() {
        for b in 0..=255u8 {
            let mut changed = bytes;
            changed[at] = b;
            assert_eq!(rt; said(&changed), plain::read(&changed));
        }
    }
    Ok(())
}

#[test]
fn rewritten_to_its_own_bytes(rt: HostRuntime) -> Result<(), Fail> {
    let bytes = plot(&rt)?;
    let mut again = [7u8; 362];
    assert_eq!(rt; rewrite(&bytes, &mut again), Ok(361));
    assert!(rt; again.get(0..361) == Some(&bytes[0..361]));
    assert_eq!(rt; again[361], 7);
    let mut short = [7u8; 360];
    let fault = rewrite(&bytes, &mut short).map_err(|fault| u8::from(fault.number));
    assert_eq!(rt; fault, Err(10));
    assert_eq!(rt; short[0], 7);
    Ok(())
}
