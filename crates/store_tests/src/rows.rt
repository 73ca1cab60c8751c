//! Lines of CSV files, and what each says.

use csv_load::{Row, RowCause, RowError, parse_row};
use std::test::Fail;

type Said = Result<Row, RowError>;

const FIELDS: Said = Err(RowError::BadRow(RowCause::Fields));

const TIME: Said = Err(RowError::BadRow(RowCause::Time));

const VALUE: Said = Err(RowError::BadRow(RowCause::Value));

/// The decimals of a series, a line, and what it says.
#[rattlefmt::skip]
const LINES: [(u8, &str, Said); 34] = [
    (2, "60,-0.07", Ok(Row::Point { time: 60, value: -7 })),
    (2, " 60 , 021.50 ", Ok(Row::Point { time: 60, value: 2150 })),
    (2, "60,21.", VALUE),
    (2, "60,.5", VALUE),
    (2, "60,6.120", VALUE),
    (2, "60,--6", VALUE),
    (2, "60,- 6", VALUE),
    (9, "5,6.1.2", VALUE),
    (9, "5,0.000000001", Ok(Row::Point { time: 5, value: 1 })),
    (9, "5,9999999999.999999999", Ok(Row::Point { time: 5, value: 9999999999999999999 })),
    (9, "5,10000000000", VALUE),
    (0, "5,-9999999999999999999", Ok(Row::Point { time: 5, value: -9999999999999999999 })),
    (0, "5,10000000000000000000", VALUE),
    (0, "5,00000000000000000000000000000000000000001", Ok(Row::Point { time: 5, value: 1 })),
    (0, "9999999999999999999,1", Ok(Row::Point { time: 9999999999999999999, value: 1 })),
    (0, "10000000000000000000,1", TIME),
    (0, "-0,1", TIME),
    (1, "5, - ", Ok(Row::Skip { time: 5 })),
    (1, "5,\"\"", Ok(Row::Skip { time: 5 })),
    (1, "5,\t6", VALUE),
    (1, "5 5,6", TIME),
    (1, "\" 5 \",\" 6 \"", Ok(Row::Point { time: 5, value: 60 })),
    (1, "5,\"6", Ok(Row::Point { time: 5, value: 60 })),
    (1, "5,\"6\"7", Ok(Row::Point { time: 5, value: 670 })),
    (1, " \"5\",6", TIME),
    (1, "\"5,6\"", FIELDS),
    (1, "5,6\r", Ok(Row::Point { time: 5, value: 60 })),
    (1, "5,6\r7,8", FIELDS),
    (1, "5\r,6", FIELDS),
    (1, "5,6,", FIELDS),
    (1, ",6", TIME),
    (1, "5,value", VALUE),
    (1, "time,5", TIME),
    (1, " time , value ", Ok(Row::Header)),
];

#[test]
fn lines_say_what_is_meant(rt: HostRuntime) -> Result<(), Fail> {
    for (scale, line, said) in LINES {
        let row = parse_row(rt.alloc(), line.as_bytes(), scale);
        assert!(rt; row == said, "{line:?}");
    }
    Ok(())
}
