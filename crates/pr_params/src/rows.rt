ghost use Rattle.pr_params.specs.Rows.{ParameterListRows, StatusDataRows};

/// Worked parameter lists, which the definition reads as they should be.
pub fn parameter_list_rows()
    ensures { ParameterListRows }
{}

/// Worked data of PERSISTENT RESERVE IN, which the definitions write as they should be.
pub fn status_data_rows()
    ensures { StatusDataRows }
{}
