//! A disk in a folder of the file system, in a folder that the test makes and takes away.

use crate::tests::steps::{Step, files_of, take_steps};
use ss_disk::{Disk, FileNo, FolderDisk};
use std::alloc::Global;
use std::test::Fail;
use std::{env, fs};

/// Steps on all three files, past the end too.
const STEPS: [Step; 7] = [
    Step::Write(FileNo::First, 0, "abcdef"),
    Step::Write(FileNo::Selector, 0, "s"),
    Step::Sync,
    Step::Write(FileNo::First, 4, "WXYZ"),
    Step::Cut(FileNo::First, 7),
    Step::Write(FileNo::Second, 0, "x"),
    Step::Sync,
];

/// The path of a folder for this process alone.
fn path_of(rt: &HostRuntime, alloc: Global, name: &str) -> Result<String, Fail> {
    let folder = env::temp_dir(rt)?;
    let number = std::process::id(rt.process());
    let Some(folder) = folder.to_str() else {
        return Err("the folder for temporary files has no name in UTF-8".into());
    };
    Ok(format!(in alloc; "{folder}/ss_disk_tests.{number}.{name}")?)
}

/// A disk in this folder, which nothing has touched yet.
fn disk_in<'a>(rt: &'a HostRuntime, folder: &str) -> Result<FolderDisk<&'a HostRuntime>, Fail> {
    match FolderDisk::new(rt.alloc(), rt, folder) {
        Ok(disk) => Ok(disk),
        Err(_) => Err("no memory".into()),
    }
}

/// How the steps went on a disk, and its faults.
fn taken_on<D: Disk>(alloc: Global, disk: &mut D) -> Result<String, Fail> {
    let taken = take_steps(alloc, disk, &STEPS)?;
    let faults = disk.faults();
    Ok(format!(in alloc; "{taken}{faults} faults")?)
}

/// What a disk in this folder reads, which opens its files.
fn files_in(rt: &HostRuntime, folder: &str) -> Result<String, Fail> {
    let mut disk = disk_in(rt, folder)?;
    files_of(rt.alloc(), &mut disk)
}

/// How the steps went on a disk in this folder, its faults, and what a second one on the same folder reads, which opens the
/// files again, where there were none.
fn story_on<D: Disk>(rt: &HostRuntime, folder: &str, disk: &mut D) -> Result<String, Fail> {
    let taken = taken_on(rt.alloc(), disk)?;
    if disk.faults() > 0 {
        return Ok(taken);
    }
    let files = files_in(rt, folder)?;
    Ok(format!(in rt.alloc(); "{taken}, {files}")?)
}

/// The same on a new disk there.
fn story_of(rt: &HostRuntime, folder: &str) -> Result<String, Fail> {
    let mut disk = disk_in(rt, folder)?;
    story_on(rt, folder, &mut disk)
}

#[test]
fn a_folder_keeps_what_was_written(rt: HostRuntime) -> Result<(), Fail> {
    let folder = path_of(&rt, rt.alloc(), "there")?;
    fs::create_dir(&rt, folder.as_str())?;
    let story = story_of(&rt, folder.as_str());
    let removed = fs::remove_dir_all(&rt, folder.as_str());
    let wanted = "done, done, done, done, done, done, done, 0 faults, s|abcdWXY|x";
    assert_eq!(rt; story?.as_str(), wanted);
    Ok(removed?)
}

#[test]
fn a_folder_that_is_not_there_is_a_fault_at_each_call(rt: HostRuntime) -> Result<(), Fail> {
    let folder = path_of(&rt, rt.alloc(), "not_there")?;
    let wanted = "failed, failed, failed, failed, failed, failed, failed, 7 faults";
    assert_eq!(rt; story_of(&rt, folder.as_str())?.as_str(), wanted);
    Ok(())
}
