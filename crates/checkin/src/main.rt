#![tactic(auto)]

mod alteration;
mod failures;
mod pocket_calls;
mod sealed_bytes;
mod studio_key;

use crate::alteration::altered;
use crate::failures::failure;
use crate::pocket_calls::work_pocket;
use crate::sealed_bytes::all_zero;
use crate::studio_key::read_key;
use anyhow::{Context, bail, ensure};
use hexadecimal::Hex;
use roll::{Kind, Label, Nonce};
use std::fs;
use std::rt::Files;
use tinyjambu::{BitEngine, Key, WordEngine};

const KEY_FILE: &str = "studio.key";

const SCENE_FILE: &str = "scene.txt";

const SEALED_FILE: &str = "scene.sealed";

// What the scene is sealed under. It is fixed, since this program demonstrates one revision; a key must meet no nonce twice.
const LABEL: Label = Label {
    nonce: Nonce {
        name: 7,
        floor: 0,
        entry: 0,
    },
    kind: Kind::Scene,
};

// The bytes of a file.
fn read_file(rt: &(impl Files + AllocGlobal), file: &str) -> anyhow::Result<Vec<u8>> {
    fs::read(rt, file).map_err(|error| failure(file, error))
}

// The key of the key file.
fn read_key_file(rt: &(impl Files + AllocGlobal)) -> anyhow::Result<Key> {
    let bytes = read_file(rt, KEY_FILE)?;
    read_key(rt.alloc(), &bytes).map_err(|fault| failure(KEY_FILE, fault))
}

// Seals the scene with the word engine and writes the sealed file.
fn check_in(rt: &(impl Files + Print + AllocGlobal), key: Key, scene: &[u8]) -> anyhow::Result<()> {
    let heap = rt.alloc();
    let mut sealed = vec![in heap; 0u8; scene.len().saturating_add(8)]?;
    let mut engine = WordEngine::new(key);
    LABEL
        .seal(&mut engine, scene, &mut sealed)
        .map_err(|fault| failure(SEALED_FILE, fault))?;
    fs::write(rt, SEALED_FILE, sealed.as_slice()).map_err(|error| failure(SEALED_FILE, error))?;
    let len = sealed.len();
    println!(rt; "{SEALED_FILE}: sealed with the word engine and written, {len} bytes")?;
    let tag = sealed
        .last_chunk::<8>()
        .context("the sealed file has no tag")?;
    let tag = Hex(tag.as_slice());
    println!(rt; "{SEALED_FILE}: its last 8 bytes are the tag {tag}")?;
    Ok(())
}

// Opens sealed bytes with the bit engine, and compares them with the scene.
fn check_out(
    rt: &(impl Print + AllocGlobal),
    key: Key,
    scene: &[u8],
    sealed: &[u8],
) -> anyhow::Result<()> {
    let heap = rt.alloc();
    let mut opened = vec![in heap; 0u8; scene.len()]?;
    let mut engine = BitEngine::new(key);
    let len = LABEL
        .open(&mut engine, sealed, &mut opened)
        .map_err(|fault| failure(SEALED_FILE, fault))?;
    println!(rt; "{SEALED_FILE}: opened with the bit engine, {len} bytes")?;
    ensure!(
        len == scene.len() && opened.as_slice() == scene,
        "the sealed file does not open to the scene"
    );
    println!(rt; "{SEALED_FILE}: what it holds is {SCENE_FILE}, byte for byte")?;
    Ok(())
}

// Shows that sealed bytes of which one was altered are refused, and that nothing of them is left in the out buffer.
fn check_altered(
    rt: &(impl Print + AllocGlobal),
    key: Key,
    sealed: &mut [u8],
) -> anyhow::Result<()> {
    let heap = rt.alloc();
    let at = altered(sealed).context("the sealed file is empty")?;
    println!(rt; "{SEALED_FILE}: byte {at} of what was read is altered by its lowest bit")?;
    let mut out = vec![in heap; 0xaau8; sealed.len()]?;
    let len = out.len();
    let mut engine = BitEngine::new(key);
    match LABEL.open(&mut engine, sealed, &mut out) {
        Ok(_) => bail!("altered bytes were opened"),
        Err(fault) => println!(rt; "altered: {fault}")?,
    }
    ensure!(
        all_zero(&out),
        "a refused opening left bytes in the out buffer"
    );
    println!(rt; "altered: the out buffer of {len} bytes is all zeros")?;
    Ok(())
}

// Checks one revision in, looks at what was stored, and keeps it in a pocket.
fn run(rt: &(impl Files + Print + AllocGlobal)) -> anyhow::Result<()> {
    let key = read_key_file(rt)?;
    println!(rt; "{KEY_FILE}: a key of 16 bytes")?;
    let scene = read_file(rt, SCENE_FILE)?;
    let len = scene.len();
    println!(rt; "{SCENE_FILE}: a scene of {len} bytes")?;
    check_in(rt, key, &scene)?;
    let mut sealed = read_file(rt, SEALED_FILE)?;
    let len = sealed.len();
    println!(rt; "{SEALED_FILE}: read back, {len} bytes")?;
    check_out(rt, key, &scene, &sealed)?;
    work_pocket(rt, &sealed)?;
    check_altered(rt, key, &mut sealed)
}

fn main(rt: HostRuntime) -> anyhow::Result<()> {
    run(&rt)
}
