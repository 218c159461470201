// The plot, made by an encoder over list bytes.
use command_list::command::{Barrier, BarrierType};
use command_list::fault::{FULL, Fault, Number};
use list_encode::encode_list;
use list_file::{check, write};
use resources::scratch::{Mark, Scratch};
use runs::call::Answer;
use season_plot::calls::{CALLS, calls};
use season_plot::commands::commands;
use std::test::Fail;

const FREE: Barrier = Barrier {
    kind: BarrierType::Uav,
    resource: 0,
    subresource: 0,
    before: 0,
    after: 0,
};

// The plot's list in the bytes, and what its calls are answered.
fn encoded<'a>(bytes: &'a mut [u8]) -> Result<(&'a [u8], [Answer; CALLS]), Fault> {
    let mut entries = [FREE];
    let mut scratch = Scratch {
        entries: &mut entries,
        mark: Mark { fill: 0 },
    };
    let mut answers = [Answer::NotOffered; CALLS];
    let pipeline = season_plot::pipeline(season_plot::layout(true)?);
    match encode_list(bytes, 0, &mut scratch, &calls(&pipeline), &mut answers) {
        Ok(list) => Ok((list, answers)),
        Err(unfit) => Err(unfit.fault),
    }
}

// The plot's commands as a list.
fn written() -> Result<[u8; 361], Fault> {
    let label = season_plot::label()?;
    let upload = season_plot::upload();
    let mut bytes = [0u8; 361];
    let _ = write(&commands(upload.as_slice(), label.units()), &mut bytes)?;
    Ok(bytes)
}

#[test]
fn the_plot_takes_361_bytes(rt: HostRuntime) -> Result<(), Fail> {
    season_plot::plot_is_recorded();
    let mut bytes = [0u8; 361];
    let (list, answers) = encoded(&mut bytes)?;
    assert!(rt; answers.iter().all(|answer| matches!(answer, Answer::Taken)));
    assert!(rt; list == written()?.as_slice());
    Ok(())
}

#[test]
fn in_360_bytes_its_end_is_refused(rt: HostRuntime) -> Result<(), Fail> {
    let mut bytes = [0u8; 360];
    let (list, answers) = encoded(&mut bytes)?;
    assert!(rt;
        answers
            .iter()
            .take(12)
            .all(|answer| matches!(answer, Answer::Taken))
    );
    assert!(rt;
        matches!(
            answers[12],
            Answer::Refused(Fault {
                number: Number::Full,
                place: 0
            })
        )
    );
    assert!(rt; matches!(answers[13], Answer::NotOffered));
    assert!(rt; written()?.get(0..354) == Some(list));
    assert_eq!(rt; check(list), Ok(25));
    Ok(())
}

#[test]
fn a_list_needs_1_to_65536_bytes(rt: HostRuntime) -> Result<(), Fail> {
    assert!(rt; encoded(&mut []).map(|_| ()) == Err(FULL));
    let mut many = [7u8; 65537];
    assert!(rt; encoded(&mut many).map(|_| ()) == Err(FULL));
    assert!(rt; many[0] == 7 && many[65536] == 7);
    let mut one = [0u8; 1];
    let (list, answers) = encoded(&mut one)?;
    assert!(rt; list == [1].as_slice());
    assert!(rt; matches!(answers[0], Answer::Taken));
    assert!(rt;
        matches!(
            answers[1],
            Answer::Refused(Fault {
                number: Number::Full,
                place: 0
            })
        )
    );
    Ok(())
}
